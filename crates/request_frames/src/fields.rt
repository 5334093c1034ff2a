//! The number and bytes fields of a line, for grammars that have others besides.

ghost use Rattle.std.specs.Prelude.{◌≡◌, ◌+◌, ◌<◌, ◌≤◌, ◌^◌, vec_len, IfOk, OnErr};
ghost use Rattle.field_text.specs.Fields.{number, bytes};
ghost use Rattle.field_text.specs.Readings.{Reads};
ghost use Rattle.request_frames.specs.FieldFaults.{GivesField};

use call_places::Span;
use field_text::{Reason, Stop};
use std::alloc::Global;

/// Why a bytes field was not read.
#[derive(Debug, Drop)]
pub enum FieldFault {
    /// The field is refused.
    Bad(Reason),
    /// There is no memory for its bytes.
    OutOfMemory,
}

/// A number field: its value, which is from `least` to `most`, or the first reason why it is none.
///
/// Any number of digits is read: a number past 2^64 is `Range`.
pub fn read_number(field: &[u8], least: u64, most: u64) -> Result<u64, Reason>
    ensures read { Reads (λ value. value) result (number least most field.now) }
    ensures within { IfOk result (λ value. (least ≤ value) × (value ≤ most)) }
{
    field_text::read_number(field, least, most)
}

/// A bytes field of at most `most` bytes, which go to the end of `pool`: the span that names them
/// there, or the first reason why it is none.
///
/// For `-` it is an empty span at the pool's end. The pool's bytes and `most` are below 2^32 together.
/// After a refusal, and for want of memory, the pool has the bytes that it had.
pub fn read_bytes(
    _alloc: Global,
    field: &[u8],
    most: usize,
    pool: &mut Vec<u8>,
) -> Result<Span, FieldFault>
    requires room { vec_len pool.old + most < 2 ^ 32 }
    ensures read { GivesField result pool.new.items (bytes most pool.old.items field.now) }
    ensures place { IfOk result (λ span.
        (span.start ≡ vec_len pool.old) × (span.start + span.len ≡ vec_len pool.new)) }
    ensures within { IfOk result (λ span. span.len ≤ most) }
    ensures kept { OnErr result (pool.new.items ≡ pool.old.items) }
{
    match field_text::read_bytes(pool, field, most) {
        Ok(span) => Ok(span),
        Err(Stop::Bad(reason)) => Err(FieldFault::Bad(reason)),
        Err(Stop::OutOfMemory) => Err(FieldFault::OutOfMemory),
    }
}
