//! The pieces of a line that are one of a few words or numbers.

ghost use Rattle.std.specs.Prelude.{◌≡◌, ◌+◌, ◌++◌, ◌≤◌, length, sum_by, OnOk};
ghost use Rattle.std.specs.Str.{bytes_eq};
ghost use Rattle.field_text.specs.Fields.{next};
ghost use Rattle.field_text.specs.Readings.{Reads};
ghost use Rattle.request_frames.specs.Words.{set_up_words, lane_words, word_among, draws};
ghost use Rattle.request_frames.specs.Words.{line_word as line_word_of, role as role_of};
ghost use Rattle.request_frames.specs.Words.{mode as mode_of, aead as aead_field};

use crate::key_words::KeyWord;
use batch_plans::KeySet;
use field_text::{Pieces, Reason, read_number};
use hkdf_labelled::Aead;
use key_schedule::{Mode, Role};

/// The first word of a line, other than `end`, by what the line is for.
#[derive(Clone, Copy, Debug, PartialEq, Eq)]
pub enum LineWord {
    Rand,
    Key(KeyWord),
    Context(ContextWord),
    Lane,
    Call(CallWord),
}

#[derive(Clone, Copy, Debug, PartialEq, Eq)]
pub enum ContextWord {
    Share,
    Send,
    Recv,
}

#[derive(Clone, Copy, Debug, PartialEq, Eq)]
pub enum CallWord {
    Seal,
    Unseal,
    UnsealAll,
    Export,
}

impl LineWord {
    /// Whether the line stands only where there is a seed.
    pub fn draws(self) -> bool
        ensures { result ≡ draws self }
    {
        match self {
            LineWord::Key(word) => word.draws(),
            LineWord::Context(word) => word == ContextWord::Send,
            _ => false,
        }
    }
}

/// Whether these bytes are this text.
pub(crate) fn is_text(bytes: &[u8], text: &[u8]) -> bool
    ensures { result ≡ bytes_eq bytes.now text.now }
{
    bytes == text
}

fn lane_word(piece: &[u8]) -> Result<LineWord, Reason>
    ensures { Reads (λ word. word) result (word_among lane_words piece.now) }
{
    if is_text(piece, b"lane") {
        Ok(LineWord::Lane)
    } else if is_text(piece, b"seal") {
        Ok(LineWord::Call(CallWord::Seal))
    } else if is_text(piece, b"unseal") {
        Ok(LineWord::Call(CallWord::Unseal))
    } else if is_text(piece, b"unsealall") {
        Ok(LineWord::Call(CallWord::UnsealAll))
    } else if is_text(piece, b"export") {
        Ok(LineWord::Call(CallWord::Export))
    } else {
        Err(Reason::Word)
    }
}

// The words of both versions.
fn common_word(piece: &[u8]) -> Result<LineWord, Reason>
    ensures { Reads (λ word. word) result (word_among (set_up_words ++ lane_words) piece.now) }
{
    if is_text(piece, b"rand") {
        Ok(LineWord::Rand)
    } else if is_text(piece, b"keygen") {
        Ok(LineWord::Key(KeyWord::Generate(KeySet::Sntrup761)))
    } else if is_text(piece, b"secret") {
        Ok(LineWord::Key(KeyWord::Secret(KeySet::Sntrup761)))
    } else if is_text(piece, b"peer") {
        Ok(LineWord::Key(KeyWord::Peer(KeySet::Sntrup761)))
    } else if is_text(piece, b"share") {
        Ok(LineWord::Context(ContextWord::Share))
    } else if is_text(piece, b"send") {
        Ok(LineWord::Context(ContextWord::Send))
    } else if is_text(piece, b"recv") {
        Ok(LineWord::Context(ContextWord::Recv))
    } else {
        lane_word(piece)
    }
}

/// The word that begins a line, in a text of this version.
pub fn line_word(version: u8, piece: &[u8]) -> Result<LineWord, Reason>
    ensures { Reads (λ word. word) result (line_word_of version piece.now) }
{
    if version != 2 {
        common_word(piece)
    } else if is_text(piece, b"keygen857") {
        Ok(LineWord::Key(KeyWord::Generate(KeySet::Sntrup857)))
    } else if is_text(piece, b"secret857") {
        Ok(LineWord::Key(KeyWord::Secret(KeySet::Sntrup857)))
    } else if is_text(piece, b"peer857") {
        Ok(LineWord::Key(KeyWord::Peer(KeySet::Sntrup857)))
    } else {
        common_word(piece)
    }
}

/// The next piece as ROLE.
#[tactic(auto, unfolding(field_text::specs::Fields::next))]
pub fn role(fields: &mut Pieces) -> Result<Role, Reason>
    ensures read { Reads (λ role. (role, fields.new)) result (next role_of fields.old) }
    ensures size { OnOk result (sum_by length fields.new ≤ sum_by length fields.old) }
{
    let piece = fields.piece()?;
    if is_text(piece, b"send") {
        Ok(Role::Sender)
    } else if is_text(piece, b"recv") {
        Ok(Role::Recipient)
    } else {
        Err(Reason::Word)
    }
}

/// The next piece as MODE.
#[tactic(auto, unfolding(field_text::specs::Fields::next))]
pub fn mode(fields: &mut Pieces) -> Result<Mode, Reason>
    ensures read { Reads (λ mode. (mode, fields.new)) result (next mode_of fields.old) }
    ensures size { OnOk result (sum_by length fields.new ≤ sum_by length fields.old) }
{
    let piece = fields.piece()?;
    if is_text(piece, b"base") {
        Ok(Mode::Base)
    } else if is_text(piece, b"psk") {
        Ok(Mode::Psk)
    } else {
        Err(Reason::Word)
    }
}

fn aead_of(piece: &[u8]) -> Result<Aead, Reason>
    ensures { Reads (λ aead. aead) result (aead_field piece.now) }
{
    let id = read_number(piece, 1, 65_535)?;
    Aead::named(id as u16).ok_or(Reason::Range)
}

/// The next piece as AEAD: its id in RFC 9180, 7.3, but not that of ChaCha20Poly1305.
#[tactic(auto, unfolding(field_text::specs::Fields::next))]
pub fn aead(fields: &mut Pieces) -> Result<Aead, Reason>
    ensures read { Reads (λ aead. (aead, fields.new)) result (next aead_field fields.old) }
    ensures size { OnOk result (sum_by length fields.new ≤ sum_by length fields.old) }
{
    let piece = fields.piece()?;
    aead_of(piece)
}
