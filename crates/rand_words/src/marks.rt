//! The marks in the low bits of the words of a short polynomial.

ghost use Rattle.std.specs.Prelude.{◌≡◌, ◌≤◌, length, map};
ghost use Rattle.rand_words.specs.Samples.{marked_nonzero, marked_zero, marked};

// Marks all these words as coefficients that aren't 0.
fn mark_nonzero(words: &mut [u32])
    ensures { words.new ≡ map marked_nonzero words.old }
{
    for i in 0..words.len() {
        words[i] = 2 * (words[i] / 2);
    }
}

// Marks all these words as coefficients that are 0.
fn mark_zero(words: &mut [u32])
    ensures { words.new ≡ map marked_zero words.old }
{
    for i in 0..words.len() {
        words[i] = 4 * (words[i] / 4) + 1;
    }
}

// Marks the first w words as coefficients that aren't 0, and the others as 0.
pub(crate) fn mark(words: &mut [u32], w: usize)
    requires { w ≤ length words.old }
    ensures { words.new ≡ marked w words.old }
{
    mark_nonzero(&mut words[..w]);
    mark_zero(&mut words[w..]);
}
