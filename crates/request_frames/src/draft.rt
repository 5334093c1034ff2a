//! The plan of the lines so far.

ghost use Rattle.std.specs.Prelude.{◌≡◌, nat_lt, length, IfOk};
ghost use Rattle.request_frames.specs.Batch.{has_place as place_of, may_stand as may_stand_at};
ghost use Rattle.request_frames.specs.Batch.{empty_plan};
ghost use Rattle.request_frames.specs.Drafts.{plan_of, IsKept};

use crate::open_lanes::OpenLanes;
use crate::words;
use crate::words::{LineWord, is_text};
use batch_plans::{ContextLine, KeyLine, PlainList, Plan, limits};
use call_places::Item;
use field_text::{Draft, Pieces, Reason, Stop};
use std::alloc::{AllocError, Global};

/// The lines so far, with the counts of all lanes.
///
/// A grammar that has other lines besides those of a batch takes its lines over one of these, as
/// [`read_batch`](crate::read_batch) does.
#[derive(Drop)]
pub struct BatchDraft {
    pub(super) alloc: Global,
    pub(super) version: u8,
    pub(super) seed: Option<[u8; 32]>,
    pub(super) pool: Vec<u8>,
    pub(super) keys: Vec<KeyLine>,
    pub(super) contexts: Vec<ContextLine>,
    pub(super) items: Vec<Item>,
    pub(super) lanes: OpenLanes,
    pub(super) added: u32,
}

impl BatchDraft {
    /// The first line alone, of this version.
    pub fn of_version(alloc: Global, version: u8) -> BatchDraft
        ensures plan { plan_of result ≡ empty_plan version }
        ensures kept { IsKept result }
    {
        BatchDraft {
            alloc,
            version,
            seed: None,
            pool: Vec::new(alloc),
            keys: Vec::new(alloc),
            contexts: Vec::new(alloc),
            items: Vec::new(alloc),
            lanes: OpenLanes::new(alloc),
            added: 0,
        }
    }

    /// Whether there is a lane.
    pub fn has_lane(&self) -> bool
        ensures { result ≡ nat_lt 0 (length (plan_of self.now).lanes) }
    {
        self.lanes.is_open()
    }

    // Whether a line of this word has its place here.
    fn has_place(&self, word: LineWord) -> bool
        ensures { result ≡ place_of word (plan_of self.now) }
    {
        let has_lane = self.lanes.is_open();
        let takes_keys = self.contexts.is_empty() && !has_lane;
        match word {
            LineWord::Rand => self.seed.is_none() && self.keys.is_empty() && takes_keys,
            LineWord::Key(_) => takes_keys,
            LineWord::Context(_) => !has_lane,
            LineWord::Lane => true,
            LineWord::Call(_) => has_lane,
        }
    }

    /// Whether a line of this word may stand behind the lines so far.
    pub fn takes(&self, word: LineWord) -> bool
        ensures { result ≡ may_stand_at word (plan_of self.now) }
    {
        self.has_place(word) && (!word.draws() || self.seed.is_some())
    }

    /// The plan of all lines.
    pub fn finish(self) -> Result<Plan, AllocError>
        requires kept { IsKept self }
        ensures plan { IfOk result (λ plan. plan ≡ plan_of self) }
    {
        let lanes = self.lanes.finish(self.alloc)?;
        Ok(Plan {
            version: self.version,
            seed: self.seed,
            pool: PlainList::from_vec(self.pool),
            keys: PlainList::from_vec(self.keys),
            contexts: PlainList::from_vec(self.contexts),
            items: PlainList::from_vec(self.items),
            lanes: PlainList::from_vec(lanes),
            added: self.added,
        })
    }
}

impl Draft for BatchDraft {
    ghost use Rattle.batch_plans.specs.Limits.{most_input};
    ghost use Rattle.request_frames.specs.Batch.{batch_lines};
    ghost use Rattle.request_frames.specs.Drafts.{plan_of, pool_size, IsKept};

    type Plan = Plan;

    type Word = LineWord;

    const MOST_INPUT: usize = limits::MOST_INPUT;

    ghost MOST_INPUT = { most_input };

    ghost grammar = { batch_lines };

    ghost plan = { plan_of };

    ghost size = { pool_size };

    ghost kept = { IsKept };

    fn begin(alloc: Global, header: &[u8]) -> Result<BatchDraft, Reason> {
        if is_text(header, b"hpkebatch 1") {
            Ok(BatchDraft::of_version(alloc, 1))
        } else if is_text(header, b"hpkebatch 2") {
            Ok(BatchDraft::of_version(alloc, 2))
        } else {
            Err(Reason::Header)
        }
    }

    fn word(&self, piece: &[u8]) -> Result<LineWord, Reason> {
        words::line_word(self.version, piece)
    }

    fn may_stand(&self, word: LineWord) -> bool {
        self.takes(word)
    }

    fn add(&mut self, word: LineWord, fields: &mut Pieces) -> Result<(), Stop> {
        self.with_line(false, word, fields)
    }
}
