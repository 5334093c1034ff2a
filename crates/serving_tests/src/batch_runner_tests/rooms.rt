//! How the room for the input grows.

use crate::batch_runner_tests::words_of;
use crate::expected::assert_same;
use batch_io::{FreeGate, Got, PureSink, Source};
use batch_runner::serve_words;
use std::alloc::Global;
use std::process::Abort;
use std::sync::Wait;
use std::thread::Threads;

// A source of so many zero bytes, which counts its reads, and those whose room is larger than 65,536
// bytes and than all that was read before.
#[derive(Drop)]
struct RoomSource {
    left: usize,
    given: usize,
    reads: u32,
    too_large: u32,
}

impl Source for RoomSource {
    ghost use Rattle.std.specs.Prelude.{None};

    ghost left = { λ _. None };

    ghost faults = { λ _. 0 };

    fn read(&mut self, buf: &mut [u8]) -> Got {
        self.reads = self.reads.saturating_add(1);
        if buf.len() > self.given.max(65_536) {
            self.too_large = self.too_large.saturating_add(1);
        }
        let count = buf.len().min(self.left);
        self.left = self.left.saturating_sub(count);
        self.given = self.given.saturating_add(count);
        Got::Bytes(count)
    }
}

// An input of so many bytes, and in how many reads it is taken: one fills the room of 65,536 bytes, each
// further one doubles what was read, and the last one tells the end, or that the limit is passed.
static INPUTS: [(usize, u32); 5] = [
    (0, 1),
    (65_535, 2),
    (65_536, 2),
    (3_000_000, 8),
    (100_000_000, 12),
];

// The room starts at 65,536 bytes and is at most doubled, and no byte is read alone.
#[test]
fn the_room_for_the_input_is_doubled(rt: HostRuntime) {
    for (size, reads) in INPUTS {
        assert_reads(&rt, rt.alloc(), size, reads);
    }
}

fn assert_reads<R: Abort + Threads + Wait + Sync>(rt: &R, alloc: Global, size: usize, reads: u32) {
    let words = words_of(rt, alloc, &["run"]);
    let mut source = RoomSource {
        left: size,
        given: 0,
        reads: 0,
        too_large: 0,
    };
    let mut sink = PureSink::new();
    let gate = FreeGate::new();
    let _ = serve_words(rt, alloc, &words, &mut source, &mut sink, &gate);
    assert_same(rt, source.too_large, 0, "rooms that are too large");
    assert_same(rt, source.reads, reads, "reads");
}
