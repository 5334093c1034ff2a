ghost use Rattle.std.specs.Prelude.{◌≡◌};

use crate::expected::{assert_at, assert_same};
use rand_words::{SeedStream, Words, short_random, small_random};
use ring_core::{Params, Small, Sntrup761, Sntrup857};
use std::alloc::Global;
use std::process::Abort;

const ZERO_SEED: [u8; 32] = [0; 32];

struct StreamCase {
    stream: u64,
    words: [u32; 8],
}

// Own, by Python 3.11: tools/vectors/chacha20_words.py with the seed of 32 zero bytes, the stream
// and 8. The script checks its block function on RFC 8439, 2.3.2. Stream 0 begins as the key stream
// of RFC 8439, A.1, test vector 1.
static STREAMS: [StreamCase; 2] = [
    StreamCase {
        stream: 0,
        words: [
            0xade0b876, 0x903df1a0, 0xe56a5d40, 0x28bd8653, 0xb819d2bd, 0x1aed8da0, 0xccef36a8,
            0xc70d778b,
        ],
    },
    StreamCase {
        stream: 1,
        words: [
            0xd6df3fef, 0xfb7815c6, 0xbd35cff5, 0x803bd33d, 0x34166309, 0xac421ed2, 0xd10b9633,
            0x320de538,
        ],
    },
];

fn first_words(mut words: SeedStream) -> [u32; 8]
    requires { words.word_pos ≡ 0 }
{
    let mut first = [0u32; 8];
    for k in 0..8usize {
        first[k] = words.next_word();
    }
    first
}

#[test]
fn streams_are_those_of_chacha20(rt: HostRuntime) {
    for case in &STREAMS {
        let stream = case.stream;
        let first = first_words(SeedStream::new(&ZERO_SEED, stream));
        assert_at(&rt, first, case.words, "stream", stream);
    }
}

// A source that gives one word for ever.
#[derive(Drop)]
struct Always {
    word: u32,
    place: u64,
}

impl Words for Always {
    ghost place = { λ w. w.place };

    ghost word = { λ w i. w.word };

    fn next_word(&mut self) -> u32 {
        self.place += 1;
        self.word
    }
}

// A word in the middle third of 30 bits, which Small makes 0.
const MIDDLE: u32 = 1 << 29;

fn assert_zeros<S: Params>(rt: &impl Abort, alloc: Global) {
    let mut words = Always {
        word: MIDDLE,
        place: 0,
    };
    let zeros: Small<S> = small_random(alloc, &mut words).expect(rt, "memory");
    assert_same(rt, zeros.as_slice().len(), S::P, "coefficients of zero");
    assert_same(rt, zeros.weight(), 0, "weight of zero");
}

#[test]
fn the_middle_third_gives_zeros(rt: HostRuntime) {
    assert_zeros::<Sntrup761>(&rt, rt.alloc());
    assert_zeros::<Sntrup857>(&rt, rt.alloc());
}

// The first coefficients, the sum of k times coefficient k, and the weight.
struct Mark {
    first: [i8; 8],
    sum: i64,
    weight: usize,
}

// The small polynomial of stream 0, and the short one of stream 1.
struct SampleCase {
    small: Mark,
    short: Mark,
}

// Own, by Python 3.11: tools/vectors/samples.py with the seed of 32 zero bytes, the stream and p;
// the weight of the short one is w.
static SAMPLES_761: SampleCase = SampleCase {
    small: Mark {
        first: [1, -1, 0, 0, 1, 0, -1, -1],
        sum: 7150,
        weight: 503,
    },
    short: Mark {
        first: [0, -1, -1, 1, 0, -1, 0, 0],
        sum: 8315,
        weight: 286,
    },
};

static SAMPLES_857: SampleCase = SampleCase {
    small: Mark {
        first: [1, -1, 0, 0, 1, 0, -1, -1],
        sum: 421,
        weight: 569,
    },
    short: Mark {
        first: [0, -1, -1, 1, 0, -1, 0, 0],
        sum: 7237,
        weight: 322,
    },
};

// The sum of k times number k.
fn weighted_sum(list: &[i8]) -> i64 {
    let mut sum = 0i64;
    for (k, number) in list.iter().enumerate() {
        sum = sum.wrapping_add((k as i64).wrapping_mul(i64::from(*number)));
    }
    sum
}

fn assert_mark<S: Params>(rt: &impl Abort, sample: &Small<S>, mark: &Mark, what: &str) {
    assert!(rt; sample.as_slice().starts_with(&mark.first), "{what}");
    assert_same(rt, weighted_sum(sample.as_slice()), mark.sum, what);
    assert_same(rt, sample.weight(), mark.weight, what);
}

fn assert_samples<S: Params>(rt: &impl Abort, alloc: Global, case: &SampleCase) {
    let small = small_random(alloc, &mut SeedStream::new(&ZERO_SEED, 0));
    let small: Small<S> = small.expect(rt, "memory");
    assert_mark(rt, &small, &case.small, "small, stream 0");
    let short = short_random(alloc, &mut SeedStream::new(&ZERO_SEED, 1));
    let short: Small<S> = short.expect(rt, "memory");
    assert_mark(rt, &short, &case.short, "short, stream 1");
}

#[test]
fn samples_are_those_of_the_words(rt: HostRuntime) {
    assert_samples::<Sntrup761>(&rt, rt.alloc(), &SAMPLES_761);
    assert_samples::<Sntrup857>(&rt, rt.alloc(), &SAMPLES_857);
}
