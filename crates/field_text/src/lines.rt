//! Texts that are judged line by line, up to their line `end`.

ghost use Rattle.std.specs.Prelude.{◌≡◌, ℕ, ◌+◌, ◌<◌, ◌≤◌, ◌^◌, length, sum_by, true, OnOk, IfOk};
ghost use Rattle.std.specs.Prelude.{Some};
ghost use Rattle.field_text.specs.Cuts.{lines_of};
ghost use Rattle.field_text.specs.Readings.{Reads, Gives, Finds};
ghost use Rattle.field_text.specs.Lines.{Grammar, FrontText, line_after, with_word, judged, front};
ghost use Rattle.field_text.specs.Lines.{whole};

use crate::cuts::cut_at;
use crate::faults::{BadBatch, ReadBatchFault};
use crate::pieces::Pieces;
use crate::reasons::Reason;
use crate::stop::Stop;
use std::alloc::Global;

/// Whether lines may follow.
#[derive(Clone, Copy, Debug, PartialEq, Eq)]
pub enum Next {
    More,
    Last,
}

/// What the lines of a text add up to, one line after another.
///
/// An implementation says which lines there are: `grammar` is their definition, and the methods
/// are its parts. How a text is cut into lines, the order in which a line's reasons are tested,
/// the line `end` and what may follow it are the same for all.
pub trait Draft: Sized + Drop {
    /// What a text spells.
    type Plan;

    /// The first word of a line.
    type Word: Copy + Drop;

    /// The most bytes of a whole text.
    const MOST_INPUT: usize;

    ghost MOST_INPUT: { ℕ };

    // The lines of the text.
    ghost grammar: { Grammar Self.Plan Self.Word };

    // What the lines so far spell.
    ghost plan: { Self → Self.Plan };

    // How many bytes their bytes fields have.
    ghost size: { Self → ℕ };

    // What holds between two lines.
    ghost kept: { Self → Type 0 };

    /// Takes the first line, without its line feed.
    fn begin(alloc: Global, header: &[u8]) -> Result<Self, Reason>
        ensures read { Reads plan result (grammar.header header.now) }
        ensures size { IfOk result (λ draft. size draft ≡ 0) }
        ensures kept { IfOk result kept };

    /// The word that begins a line other than `end`, behind the lines so far.
    fn word(&self, piece: &[u8]) -> Result<Self::Word, Reason>
        ensures { Reads (λ word. word) result (grammar.word (plan self.now) piece.now) };

    /// Whether a line of this word may stand behind the lines so far.
    fn may_stand(&self, word: Self::Word) -> bool
        ensures { result ≡ grammar.may_stand word (plan self.now) };

    /// Takes the next line, of this word and with these further pieces.
    fn add(&mut self, word: Self::Word, fields: &mut Pieces) -> Result<(), Stop>
        requires room { size self.old + sum_by length fields.old ≤ MOST_INPUT }
        requires few { length fields.old ≤ MOST_INPUT }
        requires kept { kept self.old }
        requires stands { grammar.may_stand word (plan self.old) ≡ true }
        ensures read { Gives (λ _. plan self.new) result
            (grammar.with_line (plan self.old) word fields.old) }
        ensures size { OnOk result (size self.new ≤ size self.old + sum_by length fields.old) }
        ensures kept { OnOk result (kept self.new) };
}

/// A text up to its line `end`.
#[derive(Drop)]
pub struct Front<'a, D> {
    pub draft: D,
    /// How many lines it has, the line `end` among them.
    pub lines: u32,
    /// What follows the line `end`.
    pub rest: &'a [u8],
}

fn bad(line: u32, reason: Reason) -> ReadBatchFault
    ensures { result ≡ ReadBatchFault.Bad (record { line = line; reason = reason }) }
{
    ReadBatchFault::Bad(BadBatch { line, reason })
}

// Takes what stands behind the word of a line.
fn take_word<D: Draft>(draft: &mut D, word: D::Word, fields: &mut Pieces) -> Result<Next, Stop>
    requires room { D.size draft.old + sum_by length fields.old ≤ D.MOST_INPUT }
    requires few { length fields.old ≤ D.MOST_INPUT }
    requires kept { D.kept draft.old }
    ensures read { Gives (λ next. (next, D.plan draft.new)) result
        (with_word D.grammar (D.plan draft.old) fields.old (Some word)) }
    ensures size { OnOk result (D.size draft.new ≤ D.size draft.old + sum_by length fields.old) }
    ensures kept { OnOk result (D.kept draft.new) }
{
    if !draft.may_stand(word) {
        return Err(Stop::Bad(Reason::Order));
    }
    draft.add(word, fields)?;
    Ok(Next::More)
}

// Takes the next finished line.
fn take_line<D: Draft>(draft: &mut D, line: &[u8]) -> Result<Next, Stop>
    requires room { D.size draft.old + length line.now ≤ D.MOST_INPUT }
    requires kept { D.kept draft.old }
    ensures read { Gives (λ next. (next, D.plan draft.new)) result
        (line_after D.grammar (D.plan draft.old) line.now) }
    ensures size { OnOk result (D.size draft.new ≤ D.size draft.old + length line.now) }
    ensures kept { OnOk result (D.kept draft.new) }
{
    let mut fields = Pieces::of(line);
    let piece = fields.piece()?;
    if piece == b"end".as_slice() {
        fields.exactly(0)?;
        return Ok(Next::Last);
    }
    let word = draft.word(piece)?;
    take_word(draft, word, &mut fields)
}

// Takes the lines behind the first.
fn judge<'a, D: Draft>(draft: D, text: &'a [u8]) -> Result<Front<'a, D>, ReadBatchFault>
    requires room { D.size draft + length text.now ≤ D.MOST_INPUT }
    requires small { D.MOST_INPUT < 2 ^ 31 }
    requires kept { D.kept draft }
    ensures read { Finds (λ front. record {
      plan = D.plan front.draft;
      lines = front.lines;
      rest = lines_of front.rest.now;
    }) result
        (judged D.grammar 2 (D.plan draft) (lines_of text.now)) }
    ensures lines { IfOk result (λ front. front.lines < 2 ^ 31 + 2) }
    ensures kept { IfOk result (λ front. D.kept front.draft) }
{
    let mut draft = draft;
    let mut line = 2;
    let mut rest = text;
    'lines: while let Some((finished, after)) = cut_at(rest, b'\n') {
        match take_line(&mut draft, finished) {
            Ok(Next::More) => {}
            Ok(Next::Last) => {
                return Ok(Front {
                    draft,
                    lines: line,
                    rest: after,
                });
            }
            Err(Stop::Bad(reason)) => return Err(bad(line, reason)),
            Err(Stop::OutOfMemory) => return Err(ReadBatchFault::OutOfMemory),
        }
        rest = after;
        line += 1;
    }
    Err(bad(line, Reason::NoEnd))
}

/// The front of a text up to its line `end`, or the first bad line and its first reason.
///
/// The text is read once, in time linear in its length. What follows the line `end` is not looked
/// at.
#[tactic(auto, unfolding(crate::specs::Lines::front))]
pub fn read_front<'a, D: Draft>(
    alloc: Global,
    text: &'a [u8],
) -> Result<Front<'a, D>, ReadBatchFault>
    requires { D.MOST_INPUT < 2 ^ 31 }
    ensures read { Finds (λ front. record {
      plan = D.plan front.draft;
      lines = front.lines;
      rest = lines_of front.rest.now;
    }) result (front D.grammar D.MOST_INPUT text.now) }
    ensures lines { IfOk result (λ front. front.lines < 2 ^ 31 + 2) }
    ensures kept { IfOk result (λ front. D.kept front.draft) }
{
    if text.len() > D::MOST_INPUT {
        return Err(bad(0, Reason::Size));
    }
    let Some((header, rest)) = cut_at(text, b'\n') else {
        return Err(bad(1, Reason::Header));
    };
    match D::begin(alloc, header) {
        Ok(draft) => judge(draft, rest),
        Err(reason) => Err(bad(1, reason)),
    }
}

/// The whole text, behind whose line `end` no byte may stand.
pub fn read_whole<D: Draft>(alloc: Global, text: &[u8]) -> Result<D, ReadBatchFault>
    requires { D.MOST_INPUT < 2 ^ 31 }
    ensures read { Finds D.plan result (whole (front D.grammar D.MOST_INPUT text.now)) }
    ensures kept { IfOk result D.kept }
{
    let front = read_front::<D>(alloc, text)?;
    if !front.rest.is_empty() {
        return Err(bad(front.lines + 1, Reason::Trailing));
    }
    let Front { draft, .. } = front;
    Ok(draft)
}
