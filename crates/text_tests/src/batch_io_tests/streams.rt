//! The adapters over a reader and a writer of std.

ghost use Rattle.std.specs.Prelude.{◌≤◌, IfOk};

use crate::batch_io_tests::{expect_reads, expect_writes};
use crate::expected::{assert_at, assert_same};
use batch_io::{Got, Sink, Source, StdSink, StdSource, Took};
use std::alloc::Global;
use std::io;
use std::io::{ErrorKind, Read, Write};
use std::process::Abort;

// A reader and a writer that answer as they are told, by one number a call: how many bytes are
// moved, or none for an error. What is read is `x`, and what is written is kept.
#[derive(Drop)]
struct Script {
    moves: &'static [Option<usize>],
    flushes: &'static [bool],
    at: usize,
    flushed: usize,
    written: Vec<u8>,
}

impl Script {
    fn new(alloc: Global, moves: &'static [Option<usize>], flushes: &'static [bool]) -> Script {
        Script {
            moves,
            flushes,
            at: 0,
            flushed: 0,
            written: Vec::new(alloc),
        }
    }

    fn next(&mut self, len: usize) -> io::Result<usize>
        ensures { IfOk result (λ n. n ≤ len) }
    {
        let answer = self.moves.get(self.at).copied().flatten();
        self.at = self.at.saturating_add(1);
        match answer {
            Some(count) => Ok(count.min(len)),
            None => Err(ErrorKind::Other.into()),
        }
    }
}

impl Read for Script {
    fn read(&mut self, buf: &mut [u8]) -> io::Result<usize> {
        let count = self.next(buf.len())?;
        buf[..count].fill(b'x');
        Ok(count)
    }
}

impl Write for Script {
    fn write(&mut self, buf: &[u8]) -> io::Result<usize> {
        let count = self.next(buf.len())?;
        match self.written.extend_from_slice(&buf[..count]) {
            Ok(()) => Ok(count),
            Err(_) => Err(ErrorKind::OutOfMemory.into()),
        }
    }

    fn flush(&mut self) -> io::Result<()> {
        let flushes = self.flushes.get(self.flushed).copied().unwrap_or(true);
        self.flushed = self.flushed.saturating_add(1);
        if flushes {
            Ok(())
        } else {
            Err(ErrorKind::Other.into())
        }
    }
}

#[test]
fn the_std_source_answers_failed_at_an_error_and_goes_on(rt: HostRuntime) {
    let moves = &[Some(2), None, Some(4), Some(1), Some(0)];
    let mut reader = Script::new(rt.alloc(), moves, &[]);
    let mut source = StdSource::new(&mut reader);
    let gives = [
        Got::Bytes(2),
        Got::Failed,
        Got::Bytes(4),
        Got::Bytes(1),
        Got::Bytes(0),
    ];
    expect_reads(&rt, &mut source, &gives, b"xxxxxxx", "std source");
}

// The second piece that is taken is told as failed, since the flush behind it fails, and so is
// written twice. An empty piece is no fault.
#[test]
fn the_std_sink_flushes_each_write_and_answers_failed_where_one_fails(rt: HostRuntime) {
    let moves = &[Some(2), None, Some(0), Some(2), Some(1), Some(2), Some(0)];
    let flushes = &[true, true, true, false];
    let mut writer = Script::new(rt.alloc(), moves, flushes);
    let mut sink = StdSink::new(&mut writer);
    let takes = [
        Took::Bytes(2),
        Took::Failed,
        Took::Failed,
        Took::Failed,
        Took::Bytes(1),
        Took::Bytes(2),
        Took::Bytes(0),
    ];
    expect_writes(&rt, &mut sink, &takes, b"batch", "std sink");
    drop(sink);
    assert_same(&rt, writer.flushed, 7, "flushes");
    assert_same(
        &rt,
        writer.written.as_slice(),
        b"batctch".as_slice(),
        "what is written",
    );
}

// Reads and writes of so many bytes at once. In a buffer of field_text 8,192 bytes wait at most,
// and the first read of a run is one of 65,536.
const SIZES: [usize; 6] = [1, 4096, 8192, 20_000, 32_768, 65_536];

// Reads and writes of a piece of this size.
fn expect_whole(rt: &impl Abort, alloc: Global, size: usize) {
    let mut piece = vec![in alloc; 0; size].expect(rt, "memory");
    let mut script = Script::new(alloc, &[Some(65_536), Some(65_536)], &[]);
    let got = StdSource::new(&mut script).read(&mut piece);
    assert_same(rt, got, Got::Bytes(size), "got");
    let is_whole = piece.iter().all(|byte| *byte == b'x');
    assert_at(rt, is_whole, true, "what is read", size);
    let took = StdSink::new(&mut script).write(&piece);
    assert_same(rt, took, Took::Bytes(size), "took");
    let written = script.written.as_slice();
    assert_at(rt, written, piece.as_slice(), "what is written", size);
}

#[test]
fn the_std_ends_move_large_pieces_whole(rt: HostRuntime) {
    for size in SIZES {
        expect_whole(&rt, rt.alloc(), size);
    }
}
