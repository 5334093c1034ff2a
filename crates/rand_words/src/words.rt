//! Sources of random words.

ghost use Rattle.std.specs.Prelude.{◌≡◌, ◌+◌, ◌^◌, ◌<◌, ◌≤◌, length};
ghost use Rattle.rand_words.specs.Words.{words_from};

/// A source of random words.
///
/// A contract sees the place of the next word, and the word at each place, of those before it too.
/// So two sources with the same words give the same from the same place on.
pub trait Words {
    ghost use Rattle.std.specs.Prelude.{ℕ, ◌≡◌, ◌+◌, ◌^◌, ◌<◌};

    // The place of the next word, from 0 on.
    ghost place: { Self → ℕ };

    // The word at each place from 0 to 2^32 - 1.
    ghost word: { Self → ℕ → ℕ };

    /// The word at the source's place, which moves one on. A source gives 2^32 words at most.
    fn next_word(&mut self) -> u32
        requires { place self.old < 2 ^ 32 }
        ensures value { result ≡ word self.old (place self.old) }
        ensures moves { place self.new ≡ place self.old + 1 }
        ensures stays { word self.new ≡ word self.old };
}

// Fills the list with the next words.
pub(crate) fn draw<R: Words>(words: &mut R, list: &mut [u32])
    requires { R.place words.old + length list.old ≤ 2 ^ 32 }
    ensures drawn { list.new ≡ words_from (R.word words.old) (R.place words.old) (length list.old) }
    ensures moves { R.place words.new ≡ R.place words.old + length list.old }
    ensures stays { R.word words.new ≡ R.word words.old }
{
    for i in 0..list.len() {
        list[i] = words.next_word();
    }
}
