//! Schedules: which lane takes each step of a rehearsal.

ghost use Rattle.std.specs.Prelude.{◌≡◌, [], false, codes, IfOk, Some, None, if◌then◌else◌};
ghost use Rattle.std.specs.Str.{bytes_eq};
ghost use Rattle.batch_words.specs.Words.{schedule};

use byte_strings::decimal_from_to;
use std::alloc::{AllocError, Global};
use std::marker::Model;

/// The most steps of a schedule.
const MOST_STEPS: usize = 65_536;

/// The last lane.
const LAST_LANE: u64 = 15;

/// The lanes, from 0 to 15, that take the steps of a rehearsal, in order. Contracts see the list.
#[derive(Debug, Drop)]
pub struct Schedule {
    lanes: Vec<u8>,
}

impl Model for Schedule {
    ghost use Rattle.std.specs.Prelude.{List, ℕ};

    ghost Value = { List ℕ };

    ghost view = { λ s. s.lanes.items };
}

impl Schedule {
    /// The lanes.
    pub fn as_slice(&self) -> &[u8]
        ensures { result.now ≡ self.now }
    {
        &self.lanes
    }
}

// Adds the lanes that the text writes with a comma between each two, and tells whether there are not
// too many, and all of them are lanes.
fn push_lanes(lanes: &mut Vec<u8>, text: &str) -> Result<bool, AllocError>
    requires none { lanes.old.items ≡ [] }
    requires steps { bytes_eq text.now (codes "-") ≡ false }
    ensures { IfOk result (λ whole.
        (if whole then Some lanes.new.items else None) ≡ schedule text.now) }
{
    for part in text.split(',') {
        if lanes.len() == MOST_STEPS {
            return Ok(false);
        }
        match decimal_from_to(part.as_bytes(), 0, LAST_LANE) {
            Some(lane) => lanes.push(lane as u8)?,
            None => return Ok(false),
        }
    }
    Ok(true)
}

/// The schedule that the text spells, or none.
pub(crate) fn read_schedule(alloc: Global, text: &str) -> Result<Option<Schedule>, AllocError>
    ensures { IfOk result (λ lanes. lanes ≡ schedule text.now) }
{
    let mut lanes = Vec::new(alloc);
    if text == "-" {
        return Ok(Some(Schedule { lanes }));
    }
    if push_lanes(&mut lanes, text)? {
        Ok(Some(Schedule { lanes }))
    } else {
        Ok(None)
    }
}
