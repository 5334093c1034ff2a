//! The plan of the lines so far.

ghost use Rattle.std.specs.Prelude.{◌≡◌, ◌+◌, ◌≤◌, ◌++◌, ◌∷◌, [], length, vec_len, sum_by, OnOk};
ghost use Rattle.field_text.specs.Readings.{Gives};
ghost use Rattle.batch_plans.specs.Limits.{most_input};
ghost use Rattle.request_frames.specs.KeyForms.{at_most};
ghost use Rattle.capsule_frames.specs.Capsules.{has_place as place_of, empty, is_of as kind_test};
ghost use Rattle.capsule_frames.specs.Capsules.{count_of as count_in, with_rand as rand_of};
ghost use Rattle.capsule_frames.specs.Capsules.{with_key as key_of, with_capsule as capsule_of};
ghost use Rattle.capsule_frames.specs.Drafts.{plan_of, IsKept};

use crate::lines::{CapsuleLine, CapsulePlan};
use crate::words::{CapsuleWord, LineWord};
use crate::{forms, words};
use batch_plans::limits::{MOST_INPUT, MOST_KEYS};
use batch_plans::{KeyLine, PlainList, Plan};
use field_text::{Draft, Pieces, Reason, Stop};
use request_frames::{KeyWord, read_key, read_rand};
use std::alloc::Global;

/// The capsule lines of each kind.
const MOST_LINES: usize = 256;

/// The lines so far.
#[derive(Drop)]
pub struct CapsuleDraft {
    alloc: Global,
    seed: Option<[u8; 32]>,
    pool: Vec<u8>,
    keys: Vec<KeyLine>,
    lines: Vec<CapsuleLine>,
}

fn is_of(word: CapsuleWord, line: &CapsuleLine) -> bool
    ensures { result ≡ kind_test word line.now }
{
    match *line {
        CapsuleLine::Ask { .. } => word == CapsuleWord::Ask,
        CapsuleLine::Answer { .. } => word == CapsuleWord::Answer,
        CapsuleLine::Take { .. } => word == CapsuleWord::Take,
    }
}

// How many lines of a kind there are.
fn count_of(word: CapsuleWord, lines: &[CapsuleLine]) -> usize
    ensures { result ≡ count_in word lines.now }
{
    lines.iter().filter(|line| is_of(word, line)).count()
}

// One more behind others, where it is counted with those of its kind.
fn push_within<T: Drop>(list: &mut Vec<T>, last: T, count: usize, most: usize) -> Result<(), Stop>
    ensures read { Gives (λ _. count + 1) result (at_most most (count + 1)) }
    ensures pushed { OnOk result (list.new.items ≡ list.old.items ++ last ∷ []) }
{
    if count >= most {
        return Err(Stop::Bad(Reason::Count));
    }
    Ok(list.push(last)?)
}

impl CapsuleDraft {
    fn empty(alloc: Global) -> CapsuleDraft
        ensures plan { plan_of result ≡ empty }
        ensures kept { IsKept result }
    {
        CapsuleDraft {
            alloc,
            seed: None,
            pool: Vec::new(alloc),
            keys: Vec::new(alloc),
            lines: Vec::new(alloc),
        }
    }

    // Whether a line of this word has its place here.
    fn has_place(&self, word: LineWord) -> bool
        ensures { result ≡ place_of word (plan_of self.now) }
    {
        match word {
            LineWord::Rand => {
                self.seed.is_none() && self.keys.is_empty() && self.lines.is_empty()
            }
            LineWord::Key(_) => self.lines.is_empty(),
            LineWord::Capsule(_) => true,
        }
    }

    // `rand ..`
    #[tactic(auto, unfolding(crate::specs::Capsules::with_rand))]
    fn with_rand(&mut self, fields: &mut Pieces) -> Result<(), Stop>
        requires room { vec_len self.old.pool + sum_by length fields.old ≤ most_input }
        requires kept { IsKept self.old }
        ensures read { Gives (λ _. plan_of self.new) result
            (rand_of (plan_of self.old) fields.old) }
        ensures kept { OnOk result (IsKept self.new) }
        ensures size { OnOk result
            (vec_len self.new.pool ≤ vec_len self.old.pool + sum_by length fields.old) }
    {
        let seed = read_rand(self.alloc, fields)?;
        self.seed = Some(seed);
        Ok(())
    }

    // A key line.
    #[tactic(auto, unfolding(crate::specs::Capsules::with_key))]
    fn with_key(&mut self, word: KeyWord, fields: &mut Pieces) -> Result<(), Stop>
        requires room { vec_len self.old.pool + sum_by length fields.old ≤ most_input }
        requires kept { IsKept self.old }
        ensures read { Gives (λ _. plan_of self.new) result
            (key_of (plan_of self.old) word fields.old) }
        ensures kept { OnOk result (IsKept self.new) }
        ensures size { OnOk result
            (vec_len self.new.pool ≤ vec_len self.old.pool + sum_by length fields.old) }
    {
        let key = read_key(word, &mut self.pool, fields)?;
        let count = self.keys.len();
        push_within(&mut self.keys, key, count, MOST_KEYS)
    }

    // A capsule line.
    #[tactic(auto, unfolding(crate::specs::Capsules::with_capsule))]
    fn with_capsule(&mut self, word: CapsuleWord, fields: &mut Pieces) -> Result<(), Stop>
        requires room { vec_len self.old.pool + sum_by length fields.old ≤ most_input }
        requires kept { IsKept self.old }
        ensures read { Gives (λ _. plan_of self.new) result
            (capsule_of (plan_of self.old) word fields.old) }
        ensures kept { OnOk result (IsKept self.new) }
        ensures size { OnOk result
            (vec_len self.new.pool ≤ vec_len self.old.pool + sum_by length fields.old) }
    {
        let line = forms::capsule(word, &mut self.pool, fields)?;
        let count = count_of(word, &self.lines);
        push_within(&mut self.lines, line, count, MOST_LINES)
    }

    /// The plan of all lines.
    pub fn finish(self) -> CapsulePlan
        ensures { result ≡ plan_of self }
    {
        let alloc = self.alloc;
        CapsulePlan {
            plan: Plan {
                version: 2,
                seed: self.seed,
                pool: PlainList::from_vec(self.pool),
                keys: PlainList::from_vec(self.keys),
                contexts: PlainList::from_vec(Vec::new(alloc)),
                items: PlainList::from_vec(Vec::new(alloc)),
                lanes: PlainList::from_vec(Vec::new(alloc)),
                added: 0,
            },
            lines: PlainList::from_vec(self.lines),
        }
    }
}

impl Draft for CapsuleDraft {
    ghost use Rattle.std.specs.Prelude.{vec_len};
    ghost use Rattle.batch_plans.specs.Limits.{most_input};
    ghost use Rattle.capsule_frames.specs.Capsules.{capsule_lines};
    ghost use Rattle.capsule_frames.specs.Drafts.{plan_of, IsKept};

    type Plan = CapsulePlan;

    type Word = LineWord;

    const MOST_INPUT: usize = MOST_INPUT;

    ghost MOST_INPUT = { most_input };

    ghost grammar = { capsule_lines };

    ghost plan = { plan_of };

    ghost size = { λ draft. vec_len draft.pool };

    ghost kept = { IsKept };

    fn begin(alloc: Global, header: &[u8]) -> Result<CapsuleDraft, Reason> {
        if header == b"hpkebatch 2".as_slice() {
            Ok(CapsuleDraft::empty(alloc))
        } else {
            Err(Reason::Header)
        }
    }

    fn word(&self, piece: &[u8]) -> Result<LineWord, Reason> {
        words::line_word(piece)
    }

    fn may_stand(&self, word: LineWord) -> bool {
        self.has_place(word) && (!word.draws() || self.seed.is_some())
    }

    fn add(&mut self, word: LineWord, fields: &mut Pieces) -> Result<(), Stop> {
        match word {
            LineWord::Rand => self.with_rand(fields),
            LineWord::Key(word) => self.with_key(word, fields),
            LineWord::Capsule(word) => self.with_capsule(word, fields),
        }
    }
}
