//! The passes of all contexts, handed out to the lanes and put back.

ghost use Rattle.std.specs.Prelude.{◌≡◌, IfOk, length};
ghost use Rattle.lane_workers.specs.Handing.{Takes, TakesEach, CanPut, CanPutEach, Puts, PutsEach};

use crate::works::LanePasses;
use batch_plans::PlainList;
use std::alloc::{AllocError as OutOfMemory, Global};
use turn_lock::{Pass, PassList};

// Takes the lowest pass of a list, where there is one.
fn take_one(list: &mut Option<PassList>) -> Option<Pass>
    ensures { Takes list.old list.new result }
{
    match list {
        Some(list) => list.take(),
        None => None,
    }
}

/// A lane's passes: of each context that stands the lowest that is left.
///
/// Lanes that take theirs in order get the passes of their own numbers.
pub fn take_passes(alloc: Global, lists: &mut [Option<PassList>]) -> Result<LanePasses, OutOfMemory>
    ensures { IfOk result (λ passes. TakesEach lists.old lists.new passes) }
{
    let mut passes = Vec::with_capacity(alloc, lists.len())?;
    'lists: for list in lists.iter_mut() {
        passes.push_reserved(take_one(list));
    }
    Ok(PlainList::from_vec(passes))
}

// Puts a pass into the room that one left. Where no list is nothing is put.
fn put_one(list: &mut Option<PassList>, pass: Option<Pass>)
    requires { CanPut list.old pass }
    ensures { Puts list.old list.new pass }
{
    if let (Some(list), Some(pass)) = (list, pass) {
        list.put(pass);
    }
}

/// Puts a lane's passes back into the room that they left.
pub fn put_passes(lists: &mut [Option<PassList>], passes: LanePasses)
    requires { CanPutEach lists.old passes }
    ensures { PutsEach lists.old lists.new passes }
{
    let mut passes = passes.into_vec();
    'lists: for i in 0..lists.len() {
        put_one(&mut lists[i], passes[i].take());
    }
}
