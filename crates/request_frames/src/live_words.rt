//! The first words of lines, in a batch whose lanes add and retire contexts.

ghost use Rattle.field_text.specs.Readings.{Reads};
ghost use Rattle.request_frames.specs.Live.{word as word_of};

use crate::words::{LineWord, is_text, line_word};
use field_text::Reason;

/// The first word of a line, other than `end`.
#[derive(Clone, Copy)]
pub enum LiveWord {
    /// A word of a batch of version 2.
    Batch(LineWord),
    Add,
    Retire,
}

/// The word that begins a line.
pub fn word(piece: &[u8]) -> Result<LiveWord, Reason>
    ensures { Reads (λ word. word) result (word_of piece.now) }
{
    if is_text(piece, b"add") {
        Ok(LiveWord::Add)
    } else if is_text(piece, b"retire") {
        Ok(LiveWord::Retire)
    } else {
        let word = line_word(2, piece)?;
        Ok(LiveWord::Batch(word))
    }
}
