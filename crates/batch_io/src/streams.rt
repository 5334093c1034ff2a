//! The adapters over readers and writers of std: the edge that no contract can look behind.

ghost use Rattle.std.specs.Prelude.{◌≡◌, ◌≤◌};
ghost use Rattle.batch_io.specs.Streams.{HandsOn, read_answer, write_answer};
ghost use Rattle.batch_io.specs.Outside.{Gives, Takes, faults_after_read, faults_after_write};

use crate::outside::{Got, Sink, Source, Took};
use std::io;
use std::io::{Read, Write};
use std::marker::Model;

/// A source over a reader of std. As a [`Source`] it tells nothing of bytes.
///
/// A contract sees it as the bytes that the reader has left, where std says them (of standard input
/// it doesn't), and a count of faults, which is raised at each `Err` of the reader.
#[derive(Drop)]
pub struct StdSource<T: Read> {
    inner: T,
    faults: u64,
}

impl<T: Read> Model for StdSource<T> {
    ghost use Rattle.batch_io.specs.Streams.{AdapterView};

    ghost Value = { AdapterView };

    ghost view = { λ s. record { known = T.remaining s.inner; faults = s.faults } };
}

impl<T: Read> StdSource<T> {
    /// A source over `inner`, with no fault so far.
    pub fn new(inner: T) -> StdSource<T>
        ensures { result ≡ record { known = T.remaining inner; faults = 0 } }
    {
        StdSource { inner, faults: 0 }
    }
}

// What a read answers, by what the reader answered.
fn got_of(read: io::Result<usize>) -> Got
    ensures { result ≡ read_answer read }
{
    match read {
        Ok(count) => Got::Bytes(count),
        Err(_) => Got::Failed,
    }
}

impl<T: Read> Source for StdSource<T> {
    ghost use Rattle.std.specs.Prelude.{None};

    ghost left = { λ _. None };

    ghost faults = { λ s. s.faults };

    /// One `read` of the reader.
    fn read(&mut self, buf: &mut [u8]) -> Got
        ensures bytes { Gives result None None buf.new }
        ensures known { Gives result self.old.known self.new.known buf.new }
        ensures later { self.old.faults ≤ self.new.faults }
        ensures faults { self.new.faults ≡ faults_after_read result self.old.faults }
    {
        let got = got_of(self.inner.read(buf));
        if got == Got::Failed {
            self.faults = self.faults.saturating_add(1);
        }
        got
    }
}

/// A sink over a writer of std. As a [`Sink`] it tells nothing of bytes.
///
/// A contract sees it as the bytes that the writer holds, where std says them (of standard output
/// it doesn't), and a count of faults, which is raised at each `Err` of the writer, also of its
/// flush, and where it takes nothing of a piece that isn't empty.
#[derive(Drop)]
pub struct StdSink<T: Write> {
    inner: T,
    faults: u64,
}

impl<T: Write> Model for StdSink<T> {
    ghost use Rattle.batch_io.specs.Streams.{AdapterView};

    ghost Value = { AdapterView };

    ghost view = { λ s. record { known = T.contents s.inner; faults = s.faults } };
}

impl<T: Write> StdSink<T> {
    /// A sink over `inner`, with no fault so far.
    pub fn new(inner: T) -> StdSink<T>
        ensures { result ≡ record { known = T.contents inner; faults = 0 } }
    {
        StdSink { inner, faults: 0 }
    }
}

// What a write of a piece of this size answers, by what the writer answered to the write and to
// the flush after it.
fn took_of(wrote: io::Result<usize>, flushed: io::Result<()>, size: usize) -> Took
    ensures { result ≡ write_answer wrote flushed size }
{
    match (wrote, flushed) {
        (Ok(0), Ok(())) if size > 0 => Took::Failed,
        (Ok(count), Ok(())) => Took::Bytes(count),
        _ => Took::Failed,
    }
}

impl<T: Write> Sink for StdSink<T> {
    ghost use Rattle.std.specs.Prelude.{None};

    ghost written = { λ _. None };

    ghost faults = { λ s. s.faults };

    /// One `write` of the writer, and a `flush` after it, whatever the write answered.
    ///
    /// Where the flush fails the answer is `Failed`, though the writer may have taken bytes.
    fn write(&mut self, piece: &[u8]) -> Took
        ensures bytes { Takes result None None piece.now }
        ensures known { HandsOn result self.old.known self.new.known piece.now }
        ensures later { self.old.faults ≤ self.new.faults }
        ensures faults { self.new.faults ≡ faults_after_write result self.old.faults }
    {
        let wrote = self.inner.write(piece);
        let flushed = self.inner.flush();
        let took = took_of(wrote, flushed, piece.len());
        if took == Took::Failed {
            self.faults = self.faults.saturating_add(1);
        }
        took
    }
}
