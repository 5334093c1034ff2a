//! Contexts that are shared by the lanes of a plan.

ghost use Rattle.std.specs.Prelude.{ℕ, ◌≡◌, ◌<◌, ◌≤◌, List, All, IfOk, length, map, sum};
ghost use Rattle.stamp_counter.specs.Seats.{fresh_seats};
ghost use Rattle.shared_runs.specs.Counting.{AreCounted};
ghost use Rattle.shared_runs.specs.Sharing.{shares, MayShare, Shares, SharesEach};

use batch_plans::PlainList;
use hpke_context::Context;
use shared_context::SharedContext;
use stamp_counter::{SeatList, StampCounter, StampSeat};
use std::alloc::{AllocError as OutOfMemory, Global};
use turn_lock::PassList;

/// A counter of stamps, and the seats that draw from it.
#[derive(Drop)]
pub(crate) struct Counted {
    pub(crate) counter: StampCounter,
    /// Of it lanes get notes. It may draw none.
    pub(crate) seat: StampSeat,
    /// For other lists than those of contexts.
    pub(crate) other: StampSeat,
    /// One for each context.
    pub(crate) seats: SeatList,
}

// How many entries all lanes may add to a context.
fn total(quotas: &[u32]) -> u32
    requires { sum quotas.now ≤ 65536 }
    ensures { result ≡ sum quotas.now }
{
    quotas.iter().sum()
}

// How many stamps each context may draw, behind a share of 0 and that of other lists.
fn shares(alloc: Global, all: &[PlainList<u32>], others: u32) -> Result<Vec<u32>, OutOfMemory>
    requires { sum (map sum all.now) ≤ 65536 }
    ensures { IfOk result (λ r. r.items ≡ shares all.now others) }
{
    let mut shares = Vec::with_capacity(alloc, all.len() + 2)?;
    shares.push_reserved(0);
    shares.push_reserved(others);
    'contexts: for quotas in all {
        shares.push_reserved(total(quotas.as_slice()));
    }
    Ok(shares)
}

/// Counts the stamps of contexts with these quotas, and so many others.
pub(crate) fn count_stamps(
    alloc: Global,
    all: &[PlainList<u32>],
    others: u32,
) -> Result<Counted, OutOfMemory>
    requires few { length all.now ≤ 510 }
    requires sum { sum (map sum all.now) ≤ 65536 }
    requires others { others ≤ 65536 }
    ensures { IfOk result (AreCounted all.now others) }
{
    let shares = shares(alloc, all, others)?;
    let (counter, mut seats) = StampCounter::new(alloc, &shares)?;
    let seat = seats.take().unwrap();
    let other = seats.take().unwrap();
    Ok(Counted {
        counter,
        seat,
        other,
        seats,
    })
}

// Shares a context, where it stands. The stamps of its entries are drawn from `seat`.
//
// It moves contexts of 9 KiB: kept by itself, so that no caller's frame has room for them.
#[inline(never)]
fn share(
    alloc: Global,
    context: Option<Context>,
    quotas: &[u32],
    seat: StampSeat,
) -> Result<(Option<SharedContext>, Option<PassList>), OutOfMemory>
    requires { MayShare quotas.now seat }
    ensures { IfOk result (λ r. Shares context quotas.now seat.counter r.0 r.1) }
{
    let Some(context) = context else {
        return Ok((None, None));
    };
    let (shared, passes) = SharedContext::new(alloc, context, quotas, seat)?;
    Ok((Some(shared), Some(passes)))
}

/// Shares the contexts that stand, each by lanes with its quotas.
pub(crate) fn share_all(
    alloc: Global,
    contexts: &mut [Option<Context>],
    all: &[PlainList<u32>],
    seats: &mut SeatList,
) -> Result<(Vec<Option<SharedContext>>, Vec<Option<PassList>>), OutOfMemory>
    requires count { length all.now ≡ length contexts.old }
    requires lanes { All (λ quotas. (0 < length quotas) × (length quotas < 65536)) all.now }
    requires sums { All (λ quotas. sum quotas ≤ 65536) all.now }
    requires seats { (counter : List ℕ) × (seats.old ≡ fresh_seats counter (map sum all.now)) }
    ensures { IfOk result (λ r. (counter : List ℕ)
        → seats.old ≡ fresh_seats counter (map sum all.now)
        → SharesEach contexts.old all.now counter r.0.items r.1.items) }
{
    let mut shared = Vec::with_capacity(alloc, contexts.len())?;
    let mut passes = Vec::with_capacity(alloc, contexts.len())?;
    'contexts: for number in 0..contexts.len() {
        let Some(seat) = seats.take() else {
            unreachable!()
        };
        let (one, list) = share(alloc, contexts[number].take(), all[number].as_slice(), seat)?;
        shared.push_reserved(one);
        passes.push_reserved(list);
    }
    Ok((shared, passes))
}
