//! The random words of a plan.

ghost use Rattle.std.specs.Prelude.{◌≡◌, ◌+◌, ◌*◌, ◌^◌, ◌<◌, IsSome};
ghost use Rattle.context_table.specs.Streams.{word_of, key_words, context_words};

use batch_plans::Plan;
use rand_words::{SeedStream, Words};

// A stream of the plan's seed, at its word 0.
fn stream(plan: &Plan, number: u64) -> SeedStream
    requires { IsSome plan.now.seed }
    ensures start { ⟦<SeedStream as Words>⟧.place result ≡ 0 }
    ensures words { ⟦<SeedStream as Words>⟧.word result ≡ word_of plan.now number }
{
    match &plan.seed {
        Some(seed) => SeedStream::new(seed, number),
        None => unreachable!(),
    }
}

// The words of the key of this number.
pub(crate) fn key_stream(plan: &Plan, number: usize) -> SeedStream
    requires seed { IsSome plan.now.seed }
    requires number { number < 2 ^ 32 }
    ensures start { ⟦<SeedStream as Words>⟧.place result ≡ 0 }
    ensures words { ⟦<SeedStream as Words>⟧.word result ≡ key_words plan.now number }
{
    stream(plan, 2 * number as u64)
}

/// The words of the context of this number, at the first of them: stream 2c + 1 of the plan's seed.
pub fn context_stream(plan: &Plan, number: usize) -> SeedStream
    requires seed { IsSome plan.now.seed }
    requires number { number < 2 ^ 32 }
    ensures start { ⟦<SeedStream as Words>⟧.place result ≡ 0 }
    ensures words { ⟦<SeedStream as Words>⟧.word result ≡ context_words plan.now number }
{
    stream(plan, 2 * number as u64 + 1)
}
