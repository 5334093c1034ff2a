//! The first words of lines, and the pieces that are one of a few numbers.

ghost use Rattle.std.specs.Prelude.{◌≡◌, ◌≤◌, length, sum_by, OnOk};
ghost use Rattle.std.specs.Str.{bytes_eq};
ghost use Rattle.field_text.specs.Fields.{next};
ghost use Rattle.field_text.specs.Readings.{Reads};
ghost use Rattle.capsule_frames.specs.Words.{line_word as line_word_of, draws};
ghost use Rattle.capsule_frames.specs.Forms.{cipher as cipher_field};

use batch_plans::KeySet;
use field_text::{Pieces, Reason, read_number};
use hkdf_labelled::Aead;
use request_frames::KeyWord;

/// The first word of a line, other than `end`, by what the line is for.
#[derive(Clone, Copy)]
pub enum LineWord {
    Rand,
    Key(KeyWord),
    Capsule(CapsuleWord),
}

#[derive(Clone, Copy, PartialEq, Eq)]
pub enum CapsuleWord {
    Ask,
    Answer,
    Take,
}

impl LineWord {
    /// Whether the line stands only where there is a seed.
    pub fn draws(self) -> bool
        ensures { result ≡ draws self }
    {
        match self {
            LineWord::Rand => false,
            LineWord::Key(word) => word.draws(),
            LineWord::Capsule(word) => word == CapsuleWord::Ask,
        }
    }
}

fn is_word(piece: &[u8], word: &[u8]) -> bool
    ensures { result ≡ bytes_eq piece.now word.now }
{
    piece == word
}

/// The word that begins a line.
pub fn line_word(piece: &[u8]) -> Result<LineWord, Reason>
    ensures { Reads (λ word. word) result (line_word_of piece.now) }
{
    if is_word(piece, b"rand") {
        Ok(LineWord::Rand)
    } else if is_word(piece, b"keygen") {
        Ok(LineWord::Key(KeyWord::Generate(KeySet::Sntrup761)))
    } else if is_word(piece, b"secret") {
        Ok(LineWord::Key(KeyWord::Secret(KeySet::Sntrup761)))
    } else if is_word(piece, b"peer") {
        Ok(LineWord::Key(KeyWord::Peer(KeySet::Sntrup761)))
    } else if is_word(piece, b"keygen857") {
        Ok(LineWord::Key(KeyWord::Generate(KeySet::Sntrup857)))
    } else if is_word(piece, b"secret857") {
        Ok(LineWord::Key(KeyWord::Secret(KeySet::Sntrup857)))
    } else if is_word(piece, b"peer857") {
        Ok(LineWord::Key(KeyWord::Peer(KeySet::Sntrup857)))
    } else if is_word(piece, b"ask") {
        Ok(LineWord::Capsule(CapsuleWord::Ask))
    } else if is_word(piece, b"answer") {
        Ok(LineWord::Capsule(CapsuleWord::Answer))
    } else if is_word(piece, b"take") {
        Ok(LineWord::Capsule(CapsuleWord::Take))
    } else {
        Err(Reason::Word)
    }
}

fn cipher_of(piece: &[u8]) -> Result<Aead, Reason>
    ensures { Reads (λ aead. aead) result (cipher_field piece.now) }
{
    let id = read_number(piece, 1, 2)?;
    Aead::named(id as u16).ok_or(Reason::Range)
}

/// The next piece as AEAD: the id in RFC 9180, 7.3, of one that encrypts.
#[tactic(auto, unfolding(field_text::specs::Fields::next))]
pub fn cipher(fields: &mut Pieces) -> Result<Aead, Reason>
    ensures read { Reads (λ aead. (aead, fields.new)) result (next cipher_field fields.old) }
    ensures size { OnOk result (sum_by length fields.new ≤ sum_by length fields.old) }
{
    let piece = fields.piece()?;
    cipher_of(piece)
}
