//! The plan of the lines so far, of a batch whose lanes add and retire contexts.

use crate::draft::BatchDraft;
use crate::live_words;
use crate::live_words::LiveWord;
use crate::words::is_text;
use batch_plans::{Plan, limits};
use field_text::{Draft, Pieces, Reason, Stop};
use std::alloc::Global;

/// The lines so far, taken over those of a batch.
#[derive(Drop)]
pub struct LiveDraft {
    pub batch: BatchDraft,
}

impl Draft for LiveDraft {
    ghost use Rattle.batch_plans.specs.Limits.{most_input};
    ghost use Rattle.request_frames.specs.Drafts.{plan_of, pool_size, IsKept};
    ghost use Rattle.request_frames.specs.Live.{live_lines};

    type Plan = Plan;

    type Word = LiveWord;

    const MOST_INPUT: usize = limits::MOST_INPUT;

    ghost MOST_INPUT = { most_input };

    ghost grammar = { live_lines };

    ghost plan = { λ draft. plan_of draft.batch };

    ghost size = { λ draft. pool_size draft.batch };

    ghost kept = { λ draft. IsKept draft.batch };

    fn begin(alloc: Global, header: &[u8]) -> Result<LiveDraft, Reason> {
        if is_text(header, b"hpkebatch 2") {
            Ok(LiveDraft {
                batch: BatchDraft::of_version(alloc, 2),
            })
        } else {
            Err(Reason::Header)
        }
    }

    fn word(&self, piece: &[u8]) -> Result<LiveWord, Reason> {
        live_words::word(piece)
    }

    fn may_stand(&self, word: LiveWord) -> bool {
        match word {
            LiveWord::Batch(word) => self.batch.takes(word),
            LiveWord::Add | LiveWord::Retire => self.batch.has_lane(),
        }
    }

    fn add(&mut self, word: LiveWord, fields: &mut Pieces) -> Result<(), Stop> {
        match word {
            LiveWord::Batch(word) => self.batch.with_line(true, word, fields),
            LiveWord::Add => self.batch.with_added(fields),
            LiveWord::Retire => self.batch.with_retired(fields),
        }
    }
}
