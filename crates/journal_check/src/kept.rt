//! Journals of which no more is kept than may be legal.

ghost use Rattle.std.specs.Prelude.{◌≡◌, IfOk};
ghost use Rattle.batch_plans.specs.Within.{IsWithinLimits};
ghost use Rattle.context_books.specs.Asks.{batch_of};
ghost use Rattle.journal_check.specs.Asks.{AreFew, batch_from};
ghost use Rattle.journal_check.specs.Piles.{kept_from, IsKept};

use crate::asks::{Asked, asks_of};
use crate::dealing::places_asked;
use batch_plans::{PlainList, Plan};
use call_places::Mark;
use hpke_context::Context;
use result_lines::JournalLines;
use std::alloc::{AllocError, Global};

// Of each journal one place more than are asked for on its context, or all.
fn first_places(
    alloc: Global,
    asks: &[PlainList<Asked>],
    journals: &[JournalLines],
) -> Result<Vec<PlainList<Mark>>, AllocError>
    requires { AreFew asks.now }
    ensures { IfOk result (λ kept.
        kept.items ≡ kept_from (batch_from asks.now) 0 journals.now) }
{
    let asked = places_asked(alloc, asks, journals.len())?;
    let mut kept = Vec::new(alloc);
    'journals: for (number, journal) in journals.iter().enumerate() {
        let most = asked[number].as_slice().len() + 1;
        kept.push(journal.first(alloc, most)?)?;
    }
    Ok(kept)
}

/// The places of journals, as far as they may be legal: of one that has more places than its context
/// serves, one more is kept than are served, and it isn't legal either.
///
/// So what is kept of a text has no more places than the plan's calls have items, and one for each
/// context.
pub(crate) fn kept_journals(
    alloc: Global,
    plan: &Plan,
    contexts: &[Option<Context>],
    journals: &[JournalLines],
) -> Result<Vec<PlainList<Mark>>, AllocError>
    requires { IsWithinLimits plan.now }
    ensures { IfOk result (λ kept.
        IsKept (batch_of plan.now contexts.now) journals.now kept.items) }
{
    let asks = asks_of(alloc, plan, contexts)?;
    first_places(alloc, &asks, journals)
}
