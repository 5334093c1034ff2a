//! Text that waits to be written.

ghost use Rattle.std.specs.Prelude.{◌≡◌, ◌≤◌, ◌<◌, ◌+◌, ◌*◌, ℕ, List, [], ◌∷◌, ◌++◌, length, take, decimal};
ghost use Rattle.arrayvec.specs.ArrayVec.{array_vec_len};
ghost use Rattle.hex.specs.Hex.{encode_lower};
ghost use Rattle.field_text.specs.Printing.{hex_text};

use crate::hex_printing::encode_front;
use crate::printing::{Printed, write_next};
use arrayvec::ArrayVec;
use batch_io::Sink;

/// The bytes that wait at most.
const ROOM: usize = 8_192;

/// The bytes that are turned into hex at once.
const HEX_PIECE: usize = 64;

/// Text that waits, and whether all before it was written.
///
/// The sink is passed to each call, and is always the same one. Once a write failed nothing more is
/// written; [`Buffer::finish`] tells so.
#[derive(Drop)]
pub struct Buffer {
    bytes: ArrayVec<u8, ROOM>,
    printed: Printed,
}

impl Buffer {
    ghost use Rattle.field_text.specs.Printing.{Prints};
    ghost use Rattle.field_text.specs.Buffers.{Puts, IsFresh};

    /// A buffer in which nothing waits.
    pub fn new() -> Buffer
        ensures { IsFresh result }
    {
        Buffer {
            bytes: ArrayVec::new(),
            printed: Printed::Whole,
        }
    }

    /// Begins anew: nothing waits, and no write has failed. What waited is lost.
    pub fn restart(&mut self)
        ensures { IsFresh self.new }
    {
        self.bytes.clear();
        self.printed = Printed::Whole;
    }

    // Writes what waits.
    fn flush<K: Sink>(&mut self, sink: &mut K)
        ensures text { Puts K.written K.faults sink.old sink.new self.old self.new [] }
        ensures empty { self.new.bytes.items ≡ [] }
    {
        self.printed = write_next(sink, self.printed, self.bytes.as_slice());
        self.bytes.clear();
    }

    // Makes room for a byte or more.
    fn make_room<K: Sink>(&mut self, sink: &mut K)
        ensures text { Puts K.written K.faults sink.old sink.new self.old self.new [] }
        ensures room { array_vec_len self.new.bytes < ROOM }
    {
        if self.bytes.len() < ROOM {
            return;
        }
        self.flush(sink)
    }

    // Puts as much of a piece as there is room for, and says how much.
    fn put_front<K: Sink>(&mut self, sink: &mut K, piece: &[u8]) -> usize
        requires { 0 < length piece.now }
        ensures progress { 0 < result }
        ensures within { result ≤ length piece.now }
        ensures text { Puts K.written K.faults sink.old sink.new self.old self.new (take result piece.now) }
    {
        self.make_room(sink);
        let count = piece.len().min(self.bytes.remaining_capacity());
        let _ = self.bytes.try_extend_from_slice(&piece[..count]);
        count
    }

    /// Puts a text as it stands.
    pub fn put_text<K: Sink>(&mut self, sink: &mut K, text: &[u8])
        ensures { Puts K.written K.faults sink.old sink.new self.old self.new text.now }
    {
        let mut done = 0;
        'pieces: while done < text.len() {
            done += self.put_front(sink, &text[done..]);
        }
    }

    /// Puts a number in decimal digits.
    pub fn put_number<K: Sink>(&mut self, sink: &mut K, number: u64)
        ensures { Puts K.written K.faults sink.old sink.new self.old self.new (decimal number) }
    {
        if number < 10 {
            self.put_digit(sink, number as u8);
            return;
        }
        self.put_number(sink, number / 10);
        self.put_digit(sink, (number % 10) as u8)
    }

    fn put_digit<K: Sink>(&mut self, sink: &mut K, digit: u8)
        requires { digit < 10 }
        ensures { Puts K.written K.faults sink.old sink.new self.old self.new ((48 + digit) ∷ []) }
    {
        self.make_room(sink);
        self.bytes.push(b'0' + digit)
    }

    /// Puts bytes in lower-case hex digits, and `-` for no bytes.
    pub fn put_hex<K: Sink>(&mut self, sink: &mut K, bytes: &[u8])
        ensures { Puts K.written K.faults sink.old sink.new self.old self.new (hex_text bytes.now) }
    {
        if bytes.is_empty() {
            self.put_text(sink, b"-");
            return;
        }
        self.put_hex_digits(sink, bytes)
    }

    fn put_hex_digits<K: Sink>(&mut self, sink: &mut K, bytes: &[u8])
        ensures { Puts K.written K.faults sink.old sink.new self.old self.new (encode_lower bytes.now) }
    {
        let mut done = 0;
        'pieces: while done < bytes.len() {
            let count = HEX_PIECE.min(bytes.len() - done);
            self.put_hex_piece(sink, &bytes[done..done + count]);
            done += count;
        }
    }

    fn put_hex_piece<K: Sink>(&mut self, sink: &mut K, bytes: &[u8])
        requires { length bytes.now ≤ HEX_PIECE }
        ensures { Puts K.written K.faults sink.old sink.new self.old self.new (encode_lower bytes.now) }
    {
        let mut digits = [0; 2 * HEX_PIECE];
        encode_front(bytes, &mut digits);
        self.put_text(sink, &digits[..2 * bytes.len()])
    }

    /// Writes what waits, and tells whether the whole text was written.
    pub fn finish<K: Sink>(&mut self, sink: &mut K) -> Printed
        ensures { (start : K) (fresh : Buffer) (text : List ℕ) → IsFresh fresh
            → Puts K.written K.faults start sink.old fresh self.old text
            → Prints K.written K.faults start sink.new result text }
    {
        self.flush(sink);
        self.printed
    }
}
