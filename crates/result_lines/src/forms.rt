//! Lines of numbers.

ghost use Rattle.std.specs.Prelude.{◌≡◌};
ghost use Rattle.field_text.specs.Readings.{Reads};
ghost use Rattle.result_lines.specs.Forms.{guess_in, mark_in, mark_size, coordinate, stamp_in};
ghost use Rattle.result_lines.specs.Forms.{batch_word, guess_of_line, mark_of_line};
ghost use Rattle.result_lines.specs.Tables.{live_in, note_in, note_of_line};

use crate::stamps::Stamps;
use crate::tables::NoteLine;
use batch_plans::Batch;
use batch_plans::limits::MOST_OPENING;
use call_places::{Mark, Place};
use field_text::{Pieces, Reason};

// A number of a place.
fn coordinate(fields: &mut Pieces) -> Result<u32, Reason>
    ensures { Reads (λ value. (value, fields.new)) result (coordinate fields.old) }
{
    let value = fields.number(0, 65_535)?;
    Ok(value as u32)
}

// The word before a guess.
#[tactic(auto, unfolding(field_text::specs::Fields::next))]
fn batch_word(fields: &mut Pieces) -> Result<(), Reason>
    ensures { Reads (λ _. fields.new) result (batch_word fields.old) }
{
    let piece = fields.piece()?;
    if piece == b"batch".as_slice() {
        Ok(())
    } else {
        Err(Reason::Word)
    }
}

#[tactic(auto, unfolding(crate::specs::Forms::guess_in))]
fn guess_in(fields: &mut Pieces) -> Result<Batch, Reason>
    ensures { Reads (λ guess. guess) result (guess_in fields.old) }
{
    fields.exactly(3)?;
    batch_word(fields)?;
    let guess = fields.number(0, u64::MAX)?;
    let missed = fields.number(0, MOST_OPENING as u64)? as u32;
    Ok(Batch { guess, missed })
}

// A stamp, where stamps are printed.
fn stamp_in(fields: &mut Pieces, stamps: Stamps) -> Result<u64, Reason>
    ensures { Reads (λ stamp. (stamp, fields.new)) result (stamp_in stamps fields.old) }
{
    match stamps {
        Stamps::Unprinted => Ok(0),
        Stamps::Places => fields.number(0, 65_535),
        Stamps::PlacesAndNotes => fields.number(0, 131_071),
    }
}

// How many numbers a place has.
fn mark_size(stamps: Stamps) -> usize
    ensures { result ≡ mark_size stamps }
{
    match stamps {
        Stamps::Unprinted => 3,
        Stamps::Places | Stamps::PlacesAndNotes => 4,
    }
}

#[tactic(auto, unfolding(crate::specs::Forms::mark_in))]
fn mark_in(fields: &mut Pieces, stamps: Stamps) -> Result<Mark, Reason>
    ensures { Reads (λ mark. mark) result (mark_in stamps fields.old) }
{
    fields.exactly(mark_size(stamps))?;
    let lane = coordinate(fields)?;
    let call = coordinate(fields)?;
    let item = coordinate(fields)?;
    let stamp = stamp_in(fields, stamps)?;
    let place = Place { lane, call, item };
    Ok(Mark { place, stamp })
}

// Whether a name was live.
fn live_in(fields: &mut Pieces) -> Result<bool, Reason>
    ensures { Reads (λ live. (live, fields.new)) result (live_in fields.old) }
{
    let bit = fields.number(0, 1)?;
    Ok(bit == 1)
}

#[tactic(auto, unfolding(crate::specs::Tables::note_in))]
fn note_in(fields: &mut Pieces) -> Result<NoteLine, Reason>
    ensures { Reads (λ note. note) result (note_in fields.old) }
{
    fields.exactly(4)?;
    let lane = coordinate(fields)?;
    let call = coordinate(fields)?;
    let live = live_in(fields)?;
    let stamp = stamp_in(fields, Stamps::PlacesAndNotes)?;
    Ok(NoteLine {
        lane,
        call,
        live,
        stamp,
    })
}

/// `batch G M`: what an opening of several messages guessed.
pub(crate) fn read_guess(line: &[u8]) -> Result<Batch, Reason>
    ensures { Reads (λ guess. guess) result (guess_of_line line.now) }
{
    guess_in(&mut Pieces::of(line))
}

/// `LANE CALL ITEM`, with stamps `LANE CALL ITEM STAMP`. Without stamps the stamp is 0.
pub(crate) fn read_mark(line: &[u8], stamps: Stamps) -> Result<Mark, Reason>
    ensures { Reads (λ mark. mark) result (mark_of_line stamps line.now) }
{
    mark_in(&mut Pieces::of(line), stamps)
}

/// `LANE CALL BIT STAMP`: a note of the table.
pub(crate) fn read_note(line: &[u8]) -> Result<NoteLine, Reason>
    ensures { Reads (λ note. note) result (note_of_line line.now) }
{
    note_in(&mut Pieces::of(line))
}
