//! A message that a line gives, or the number of the line that made it.

ghost use Rattle.std.specs.Prelude.{◌≡◌, ◌+◌, ◌<◌, ◌≤◌, ◌^◌, length, vec_len, sum_by, OnOk};
ghost use Rattle.field_text.specs.Fields.{next};
ghost use Rattle.field_text.specs.Readings.{Gives};
ghost use Rattle.request_frames.specs.KeyForms.{is_reference as reference_test, message as message_of};

use batch_plans::EncField;
use field_text::{Pieces, Stop, read_bytes, read_number};

fn is_reference(piece: &[u8]) -> bool
    ensures { result ≡ reference_test piece.now }
{
    match piece {
        [] => false,
        [first, ..] => *first == b'@',
    }
}

fn message_field(pool: &mut Vec<u8>, piece: &[u8], most: usize) -> Result<EncField, Stop>
    requires room { vec_len pool.old + length piece.now < 2 ^ 32 }
    ensures read { Gives (λ message. (message, pool.new.items)) result
        (message_of most pool.old.items piece.now) }
    ensures size { OnOk result (vec_len pool.new ≤ vec_len pool.old + length piece.now) }
{
    if is_reference(piece) {
        let number = read_number(&piece[1..], 0, 65_535)?;
        return Ok(EncField::Of(number as u32));
    }
    let bytes = read_bytes(pool, piece, most)?;
    Ok(EncField::Bytes(bytes))
}

/// The next piece as a message of at most `most` bytes, which go to the end of `pool`, or as `@` and
/// the number of the line that made it.
#[tactic(auto, unfolding(field_text::specs::Fields::next))]
pub fn read_message(pool: &mut Vec<u8>, fields: &mut Pieces, most: usize) -> Result<EncField, Stop>
    requires room { vec_len pool.old + sum_by length fields.old < 2 ^ 32 }
    ensures read { Gives (λ message. ((message, pool.new.items), fields.new)) result
        (next (message_of most pool.old.items) fields.old) }
    ensures size { OnOk result (vec_len pool.new + sum_by length fields.new
        ≤ vec_len pool.old + sum_by length fields.old) }
{
    let piece = fields.piece()?;
    message_field(pool, piece, most)
}
