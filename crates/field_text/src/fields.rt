//! One piece as a number, or as bytes.

ghost use Rattle.std.specs.Prelude.{◌≡◌, ◌+◌, ◌*◌, ◌/◌, ◌%◌, ◌<◌, ◌≤◌, ◌^◌, ◌++◌, length, vec_len};
ghost use Rattle.std.specs.Prelude.{true, false, take, min, IfOk, OnOk, OnErr, if◌then◌else◌};
ghost use Rattle.std.specs.List.{list_all};
ghost use Rattle.field_text.specs.Fields.{number, is_hex_digit, bytes};
ghost use Rattle.field_text.specs.Readings.{Reads, Gives};
ghost use Rattle.field_text.specs.declared.reasons.Reason.TheVariants.{Size, Hex};
ghost use Rattle.field_text.specs.HexLanes.{pairs_of};

use crate::hex_reading::{all_hex_digits, decode};
use crate::reasons::Reason;
use crate::stop::Stop;
use byte_strings::{is_decimal, value_of};
use call_places::Span;
use std::alloc::AllocError;

/// A number field with the range `low` to `high`, both within.
///
/// Any number of digits is read: a number past 2^64 is `Range`.
pub fn read_number(piece: &[u8], low: u64, high: u64) -> Result<u64, Reason>
    ensures read { Reads (λ value. value) result (number low high piece.now) }
    ensures within { IfOk result (λ value. (low ≤ value) × (value ≤ high)) }
{
    if !is_decimal(piece) {
        return Err(Reason::Number);
    }
    match value_of(piece) {
        Some(value) if low <= value && value <= high => Ok(value),
        _ => Err(Reason::Range),
    }
}

// Writes the bytes of hex digits over the end of `room`, and tells whether all were digits.
fn decode_at(room: &mut [u8], start: usize, digits: &[u8]) -> bool
    requires sized { 2 * start + length digits.now ≡ 2 * length room.old }
    ensures size { length room.new ≡ length room.old }
    ensures good { result ≡ list_all is_hex_digit digits.now }
    ensures bytes { result ≡ true → room.new ≡ take start room.old ++ pairs_of digits.now }
    ensures kept { take start room.new ≡ take start room.old }
{
    decode(digits, &mut room[start..])
}

// Adds the bytes of hex digits, and tells whether all were digits. Where not, nothing is added.
fn push_decoded(pool: &mut Vec<u8>, digits: &[u8]) -> Result<bool, AllocError>
    requires even { length digits.now % 2 ≡ 0 }
    requires room { vec_len pool.old + length digits.now / 2 < 2 ^ 32 }
    ensures good { IfOk result (λ good. good ≡ list_all is_hex_digit digits.now) }
    ensures items { IfOk result (λ good. good ≡ true
        → pool.new.items ≡ pool.old.items ++ pairs_of digits.now) }
    ensures size { IfOk result (λ good. good ≡ true
        → vec_len pool.new ≡ vec_len pool.old + length digits.now / 2) }
    ensures bad { IfOk result (λ good. good ≡ false → pool.new.items ≡ pool.old.items) }
    ensures kept { OnErr result (pool.new.items ≡ pool.old.items) }
{
    let start = pool.len();
    pool.resize(start + digits.len() / 2, 0)?;
    let good = decode_at(pool, start, digits);
    if !good {
        pool.truncate(start);
    }
    Ok(good)
}

// Why a field of too many bytes is refused: a byte that is no digit comes first.
fn reason_of_long(digits: &[u8]) -> Reason
    ensures { result ≡ (if list_all is_hex_digit digits.now then Size else Hex) }
{
    if all_hex_digits(digits) {
        Reason::Size
    } else {
        Reason::Hex
    }
}

/// A bytes field of at most `most` bytes, which go to the end of `pool`.
///
/// The answer names them there: for `-` it is an empty span at the pool's end. A span counts in 32
/// bits, so what is in the pool and what the field may add have to be below 2^32 bytes together.
pub fn read_bytes(pool: &mut Vec<u8>, piece: &[u8], most: usize) -> Result<Span, Stop>
    requires room { vec_len pool.old + min most (length piece.now) < 2 ^ 32 }
    ensures read { Gives (λ span. record { span = span; pool = pool.new.items })
        result (bytes most pool.old.items piece.now) }
    ensures place { IfOk result (λ span.
        (span.start ≡ vec_len pool.old) × (span.start + span.len ≡ vec_len pool.new)) }
    ensures most { IfOk result (λ span. span.len ≤ most) }
    ensures size { OnOk result (vec_len pool.new ≤ vec_len pool.old + length piece.now) }
    ensures kept { OnErr result (pool.new.items ≡ pool.old.items) }
{
    let start = pool.len() as u32;
    if piece == b"-".as_slice() {
        return Ok(Span { start, len: 0 });
    }
    let len = piece.len() / 2;
    if len == 0 || piece.len() % 2 == 1 {
        return Err(Stop::Bad(Reason::Hex));
    }
    if len > most {
        return Err(Stop::Bad(reason_of_long(piece)));
    }
    if !push_decoded(pool, piece)? {
        return Err(Stop::Bad(Reason::Hex));
    }
    Ok(Span {
        start,
        len: len as u32,
    })
}
