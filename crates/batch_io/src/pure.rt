//! A source and a sink that never fail.

ghost use Rattle.std.specs.Prelude.{◌≡◌, ◌≤◌, ◌++◌, min, length, take, Some};
ghost use Rattle.batch_io.specs.Outside.{Gives};

use crate::outside::{Got, Sink, Source, Took};
use std::marker::Model;

// Copies the first `count` bytes.
fn copy_front(from: &[u8], into: &mut [u8], count: usize)
    requires has { count ≤ length from.now }
    requires fits { count ≤ length into.old }
    ensures { take count into.new ≡ take count from.now }
{
    into[..count].copy_from_slice(&from[..count]);
}

/// A source of given bytes that never fails.
///
/// A contract sees it as the bytes that are left.
#[derive(Drop)]
pub struct PureSource {
    bytes: Vec<u8>,
    given: usize,
}

impl Model for PureSource {
    ghost use Rattle.std.specs.Prelude.{ℕ, ◌≤◌, List, drop, vec_len};

    ghost Value = { List ℕ };

    ghost view = { λ s. drop s.given s.bytes.items };

    ghost invariant = { λ s. s.given ≤ vec_len s.bytes };
}

impl PureSource {
    /// A source of `bytes`, from their front on.
    pub fn new(bytes: Vec<u8>) -> PureSource
        ensures { result ≡ bytes.items }
    {
        PureSource { bytes, given: 0 }
    }

    /// Gives the next bytes, at most `step`, and says how many.
    pub(crate) fn give(&mut self, buf: &mut [u8], step: usize) -> usize
        ensures bytes { self.old ≡ take result buf.new ++ self.new }
        ensures most { result ≡ min (min step (length buf.old)) (length self.old) }
    {
        let left = &self.bytes[self.given..];
        let count = step.min(buf.len()).min(left.len());
        copy_front(left, buf, count);
        self.given += count;
        count
    }
}

impl Source for PureSource {
    ghost use Rattle.std.specs.Prelude.{Some};

    ghost left = { λ s. Some s };

    ghost faults = { λ _. 0 };

    /// Gives as many bytes as are left and as there is room for.
    fn read(&mut self, buf: &mut [u8]) -> Got
        ensures bytes { Gives result (Some self.old) (Some self.new) buf.new }
        ensures most { result ≡ Got.Bytes (min (length self.old) (length buf.old)) }
    {
        let room = buf.len();
        Got::Bytes(self.give(buf, room))
    }
}

/// A sink that takes each piece whole, keeps none of it and never fails.
///
/// It tells nothing of bytes.
#[derive(Clone, Copy, Debug, Default)]
pub struct PureSink;

impl PureSink {
    /// The sink, which has no state.
    pub fn new() -> PureSink
        ensures { result ≡ record {} }
    {
        PureSink
    }
}

impl Sink for PureSink {
    ghost use Rattle.std.specs.Prelude.{None};

    ghost written = { λ _. None };

    ghost faults = { λ _. 0 };

    /// Takes the whole piece.
    fn write(&mut self, piece: &[u8]) -> Took
        ensures whole { result ≡ Took.Bytes (length piece.now) }
    {
        Took::Bytes(piece.len())
    }
}
