//! Streams of words from a seed.

ghost use Rattle.std.specs.Prelude.{◌≡◌, ℕ};
ghost use Rattle.rand_chacha.specs.ChaCha.{key_of};
ghost use Rattle.rand_words.specs.Words.{stream_word};

use crate::words::Words;
use rand_chacha::ChaCha20Rng;
use rand_core::SeedableRng;
use rand_core::utils::NextWord;
use std::marker::Model;

/// A stream of words of ChaCha20: a seed has 2^64 streams. Contracts see the key, the number of the
/// stream and the place of the next word.
#[derive(Drop)]
pub struct SeedStream {
    rng: ChaCha20Rng,
}

impl Model for SeedStream {
    ghost use Rattle.rand_chacha.specs.ChaCha.{ChaCha};

    ghost Value = { ChaCha };

    ghost view = { λ s. s.rng };
}

impl SeedStream {
    /// The stream with this number, whose key is the seed, from its word 0 on.
    pub fn new(seed: &[u8; 32], stream: u64) -> SeedStream
        ensures start { result ≡ record { key = key_of seed.now; stream = stream; word_pos = 0 } }
        ensures words { (i : ℕ)
            → ⟦<SeedStream as Words>⟧.word result i ≡ stream_word seed.now stream i }
    {
        let mut rng = ChaCha20Rng::from_seed(*seed);
        rng.set_stream(stream);
        SeedStream { rng }
    }
}

impl Words for SeedStream {
    ghost use Rattle.rand_chacha.specs.ChaCha.{word_at};

    ghost place = { λ s. s.word_pos };

    ghost word = { λ s i. word_at 10 s.key s.stream i };

    fn next_word(&mut self) -> u32 {
        self.rng.next_word()
    }
}
