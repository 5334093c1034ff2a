//! The contexts that calls name, and those that lines add and retire.

ghost use Rattle.std.specs.Prelude.{◌≡◌, ◌+◌, ◌≤◌, length, sum_by, OnOk};
ghost use Rattle.field_text.specs.Fields.{next};
ghost use Rattle.field_text.specs.Readings.{Reads};
ghost use Rattle.request_frames.specs.Forms.{is_name as name_test, name as name_of, ctx};

use batch_plans::FIRST_NAME;
use field_text::{Pieces, Reason, read_number};

fn is_name(piece: &[u8]) -> bool
    ensures { result ≡ name_test piece.now }
{
    match piece {
        [] => false,
        [first, ..] => *first == b'+',
    }
}

// `+` and the number of an `add` line.
fn name_field(piece: &[u8]) -> Result<u32, Reason>
    ensures { Reads (λ name. name) result (name_of piece.now) }
{
    if !is_name(piece) {
        return Err(Reason::Number);
    }
    Ok(read_number(&piece[1..], 0, 65_535)? as u32)
}

fn context_field(names: bool, piece: &[u8]) -> Result<u32, Reason>
    ensures { Reads (λ context. context) result (ctx names piece.now) }
{
    if names && is_name(piece) {
        return Ok(FIRST_NAME + name_field(piece)?);
    }
    Ok(read_number(piece, 0, 65_535)? as u32)
}

/// The next piece as `+K`: the number of an `add` line.
#[tactic(auto, unfolding(field_text::specs::Fields::next))]
pub fn name(fields: &mut Pieces) -> Result<u32, Reason>
    ensures read { Reads (λ name. (name, fields.new)) result (next name_of fields.old) }
    ensures size { OnOk result (sum_by length fields.new ≤ sum_by length fields.old) }
{
    let piece = fields.piece()?;
    name_field(piece)
}

/// The next piece as CTX, where `names` says whether it may be `+K`.
#[tactic(auto, unfolding(field_text::specs::Fields::next))]
pub fn context(names: bool, fields: &mut Pieces) -> Result<u32, Reason>
    ensures read { Reads (λ context. (context, fields.new)) result (next (ctx names) fields.old) }
    ensures count { OnOk result (length fields.old ≡ length fields.new + 1) }
    ensures size { OnOk result (sum_by length fields.new ≤ sum_by length fields.old) }
{
    let piece = fields.piece()?;
    context_field(names, piece)
}
