//! The items of a call that opens several.

ghost use Rattle.std.specs.Prelude.{◌≡◌, ◌≤◌, ◌+◌, length};
ghost use Rattle.batch_plans.specs.Limits.{items_from};

use call_places::Item;

/// The items of a call that opens several: so many of the plan's items, from this one on.
pub fn items_from(items: &[Item], first: u32, count: u32) -> &[Item]
    requires { first + count ≤ length items.now }
    ensures { result.now ≡ items_from items.now first count }
{
    let start = first as usize;
    let end = start + count as usize;
    &items[start..end]
}
