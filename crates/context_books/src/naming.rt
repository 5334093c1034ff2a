//! What an opening names.

ghost use Rattle.std.specs.Prelude.{◌≡◌, length};
ghost use Rattle.batch_plans.specs.Within.{IsCallWithin};
ghost use Rattle.context_books.specs.LaneCalls.{opening_items};

use batch_plans::{CallLine, Plan, items_from};
use call_places::Item;

/// The items that an opening names, in order; of other calls none.
pub fn items_of_opening<'a>(plan: &'a Plan, call: &'a CallLine) -> &'a [Item]
    requires { IsCallWithin (length plan.now.items) (length plan.now.pool) call.now }
    ensures { result.now ≡ opening_items plan.now call.now }
{
    match call {
        CallLine::Unseal { item, .. } => std::slice::from_ref(item),
        CallLine::UnsealAll { first, count, .. } => items_from(
            plan.items.as_slice(),
            *first,
            *count,
        ),
        _ => &[],
    }
}
