//! A source and a sink in memory, which move bytes in small steps and fail on demand.

ghost use Rattle.std.specs.Prelude.{◌≡◌, ◌↔◌, ◌⊎◌, ◌<◌, ◌≤◌, ◌≢◌, ◌+◌, ◌++◌, length, Some, [], vec_len};
ghost use Rattle.batch_io.specs.Outside.{Gives, Takes, faults_after_read, faults_after_write};
ghost use Rattle.batch_io.specs.Faults.{raised};
ghost use Rattle.batch_io.specs.Memory.{NextFails, LacksRoom, most_given, most_taken};

use crate::calls::Calls;
use crate::outside::{Got, Sink, Source, Took};
use crate::pure::PureSource;
use std::marker::Model;

/// A source of given bytes that gives at most `step` of them in one call, and fails in the calls
/// whose numbers it was given.
#[derive(Drop)]
pub struct MemorySource {
    source: PureSource,
    step: usize,
    calls: Calls,
    faults: u64,
}

impl Model for MemorySource {
    ghost use Rattle.std.specs.Prelude.{◌<◌};
    ghost use Rattle.batch_io.specs.Memory.{SourceView};

    ghost Value = { SourceView };

    ghost view = { λ s. record {
      left = s.source;
      step = s.step;
      failing = s.calls.failing.items;
      calls = s.calls.made;
      faults = s.faults;
    } };

    ghost invariant = { λ s. 0 < s.step };
}

impl MemorySource {
    /// A source of `bytes`, from their front on. The numbers in `failing` count calls from 1.
    ///
    /// A step of no bytes would be told from the end of the input by nobody, so it is at least 1.
    pub fn new(bytes: Vec<u8>, step: usize, failing: Vec<u32>) -> MemorySource
        requires { 0 < step }
        ensures { result ≡ record {
          left = bytes.items;
          step = step;
          failing = failing.items;
          calls = 0;
          faults = 0;
        } }
    {
        MemorySource {
            source: PureSource::new(bytes),
            step,
            calls: Calls::new(failing),
            faults: 0,
        }
    }
}

impl Source for MemorySource {
    ghost use Rattle.std.specs.Prelude.{Some};

    ghost left = { λ s. Some s.left };

    ghost faults = { λ s. s.faults };

    /// Gives the most bytes that the step, `buf` and the bytes left allow, or fails if it is to.
    fn read(&mut self, buf: &mut [u8]) -> Got
        ensures bytes { Gives result (Some self.old.left) (Some self.new.left) buf.new }
        ensures later { self.old.faults ≤ self.new.faults }
        ensures fails { (result ≡ Got.Failed) ↔ NextFails self.old.failing self.old.calls }
        ensures most { result ≢ Got.Failed
            → result ≡ Got.Bytes (most_given self.old (length buf.old)) }
        ensures counted { self.new ≡ record self.old {
          left = self.new.left;
          calls = raised self.old.calls;
          faults = faults_after_read result self.old.faults;
        } }
    {
        if self.calls.next_fails() {
            self.faults = self.faults.saturating_add(1);
            return Got::Failed;
        }
        Got::Bytes(self.source.give(buf, self.step))
    }
}

/// A sink into given room that takes at most `step` bytes in one call, and fails in the calls
/// whose numbers it was given, and where no room is left.
#[derive(Drop)]
pub struct MemorySink {
    room: Vec<u8>,
    filled: usize,
    step: usize,
    calls: Calls,
    faults: u64,
}

impl Model for MemorySink {
    ghost use Rattle.std.specs.Prelude.{◌<◌, ◌≤◌, take, vec_len};
    ghost use Rattle.batch_io.specs.Memory.{SinkView};

    ghost Value = { SinkView };

    ghost view = { λ s. record {
      written = take s.filled s.room.items;
      room = vec_len s.room;
      step = s.step;
      failing = s.calls.failing.items;
      calls = s.calls.made;
      faults = s.faults;
    } };

    ghost invariant = { λ s. (s.filled ≤ vec_len s.room) × (0 < s.step) };
}

impl MemorySink {
    /// A sink that writes over `room` from its front, and so takes as many bytes as `room` has.
    ///
    /// The numbers in `failing` count calls from 1. A step of no bytes would let nothing be
    /// written, so it is at least 1.
    pub fn new(room: Vec<u8>, step: usize, failing: Vec<u32>) -> MemorySink
        requires { 0 < step }
        ensures { result ≡ record {
          written = [];
          room = vec_len room;
          step = step;
          failing = failing.items;
          calls = 0;
          faults = 0;
        } }
    {
        MemorySink {
            room,
            filled: 0,
            step,
            calls: Calls::new(failing),
            faults: 0,
        }
    }

    /// The bytes that were written.
    pub fn bytes(&self) -> &[u8]
        ensures { result.now ≡ self.now.written }
    {
        &self.room[..self.filled]
    }

    // Writes bytes that there is room for.
    fn fill(&mut self, bytes: &[u8])
        requires { length self.old.written + length bytes.now ≤ self.old.room }
        ensures { self.new ≡ record self.old { written = self.old.written ++ bytes.now } }
    {
        let count = bytes.len();
        self.room[self.filled..self.filled + count].copy_from_slice(bytes);
        self.filled += count;
    }
}

impl Sink for MemorySink {
    ghost use Rattle.std.specs.Prelude.{Some};

    ghost written = { λ s. Some s.written };

    ghost faults = { λ s. s.faults };

    /// Takes the most bytes that the step, `piece` and the room left allow, or fails if it is to.
    fn write(&mut self, piece: &[u8]) -> Took
        ensures bytes { Takes result (Some self.old.written) (Some self.new.written) piece.now }
        ensures later { self.old.faults ≤ self.new.faults }
        ensures fails { (result ≡ Took.Failed)
            ↔ (NextFails self.old.failing self.old.calls ⊎ LacksRoom self.old piece.now) }
        ensures most { result ≢ Took.Failed
            → result ≡ Took.Bytes (most_taken self.old (length piece.now)) }
        ensures counted { self.new ≡ record self.old {
          written = self.new.written;
          calls = raised self.old.calls;
          faults = faults_after_write result self.old.faults;
        } }
    {
        let fails = self.calls.next_fails();
        let left = self.room.len() - self.filled;
        if fails || (left == 0 && !piece.is_empty()) {
            self.faults = self.faults.saturating_add(1);
            return Took::Failed;
        }
        let count = self.step.min(piece.len()).min(left);
        self.fill(&piece[..count]);
        Took::Bytes(count)
    }
}
