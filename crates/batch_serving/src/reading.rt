//! The whole input of a run.

ghost use Rattle.std.specs.Prelude.{◌≡◌, ◌≢◌, ◌<◌, ◌≤◌, ℕ, List, length, take, drop, vec_len, IfOk, OnOk};
ghost use Rattle.std.specs.Io.KnownBytes.{Consumes};
ghost use Rattle.batch_io.specs.Outside.{Gives};
ghost use Rattle.batch_io.specs.Faults.{Rose};
ghost use Rattle.batch_serving.specs.Input.{IsInput, input_limit};

use batch_io::{Got, Source};
use batch_plans::limits::MOST_INPUT;
use std::alloc::{AllocError, Global};

/// The most bytes that are taken: one more than a batch may have.
const INPUT_LIMIT: usize = MOST_INPUT + 1;

// The room that the first read is offered.
const FIRST_ROOM: usize = 65_536;

/// Why the input wasn't read to its end.
#[derive(Debug, Drop)]
pub enum ReadStop {
    /// A read of the source failed.
    Fault,
    OutOfMemory,
}

impl From<AllocError> for ReadStop {
    ghost use Rattle.std.specs.Prelude.{◌≡◌};
    ghost use Rattle.batch_serving.specs.declared.reading.ReadStop.TheVariants.{OutOfMemory};

    ghost from_gives = { λ _ stop. stop ≡ OutOfMemory };

    fn from(_: AllocError) -> ReadStop {
        ReadStop::OutOfMemory
    }
}

// How large the room is made when it is full: twice as large, up to all that is taken at most.
fn more_room(room: usize) -> usize
    requires { room < input_limit }
    ensures { (room < result) × (result ≤ input_limit) }
{
    FIRST_ROOM.max(2 * room).min(INPUT_LIMIT)
}

// Room behind the filled bytes. Where there is none it is made.
fn make_room(bytes: &mut Vec<u8>, filled: usize) -> Result<(), AllocError>
    requires filled { (filled ≤ vec_len bytes.old) × (filled < input_limit) }
    requires within { vec_len bytes.old ≤ input_limit }
    ensures front { OnOk result (take filled bytes.new.items ≡ take filled bytes.old.items) }
    ensures room { OnOk result ((filled < vec_len bytes.new)
        × (vec_len bytes.new ≤ input_limit)) }
{
    if filled < bytes.len() {
        return Ok(());
    }
    bytes.resize(more_room(filled), 0)
}

// Reads into the room behind the filled bytes.
fn read_behind<S: Source>(source: &mut S, bytes: &mut Vec<u8>, filled: usize) -> Got
    requires { filled ≤ vec_len bytes.old }
    ensures front { take filled bytes.new.items ≡ take filled bytes.old.items }
    ensures len { vec_len bytes.new ≡ vec_len bytes.old }
    ensures bytes { Gives result (S.left source.old) (S.left source.new)
        (drop filled bytes.new.items) }
    ensures given { (n : ℕ) → result ≡ Got.Bytes n
        → S.faults source.new ≡ S.faults source.old }
    ensures failed { result ≡ Got.Failed → Rose (S.faults source.old) (S.faults source.new) }
{
    source.read(&mut bytes[filled..])
}

/// The bytes up to the input's end, or as many as are taken at most.
///
/// They are read straight into their room, which is doubled when it is full: so a small input takes
/// little memory, and no more bytes are moved than are read. Each turn takes a byte, so reading ends.
pub fn read_input<S: Source>(alloc: Global, source: &mut S) -> Result<Vec<u8>, ReadStop>
    ensures input { IfOk result (λ bytes.
        IsInput (S.left source.old) (S.left source.new) bytes.items) }
    ensures taken { (front : List ℕ) × Consumes (S.left source.old) (S.left source.new) front
        × (length front ≤ input_limit) }
    ensures no_fault { result ≢ Err ReadStop.Fault
        → S.faults source.new ≡ S.faults source.old }
    ensures fault { result ≡ Err ReadStop.Fault → Rose (S.faults source.old) (S.faults source.new) }
{
    let mut bytes = Vec::new(alloc);
    let mut filled = 0;
    'pieces: while filled < INPUT_LIMIT {
        make_room(&mut bytes, filled)?;
        match read_behind(source, &mut bytes, filled) {
            Got::Bytes(0) => {
                bytes.truncate(filled);
                return Ok(bytes);
            }
            Got::Bytes(count) => filled += count,
            Got::Failed => return Err(ReadStop::Fault),
        }
    }
    Ok(bytes)
}
