//! What each line adds to the plan of the lines so far.

ghost use Rattle.std.specs.Prelude.{◌≡◌, ◌+◌, ◌<◌, ◌≤◌, ◌^◌, ◌++◌, [], ◌∷◌, length, vec_len};
ghost use Rattle.std.specs.Prelude.{sum_by, OnOk, true};
ghost use Rattle.field_text.specs.Readings.{Gives};
ghost use Rattle.batch_plans.specs.Limits.{most_input, items_of};
ghost use Rattle.request_frames.specs.KeyForms.{at_most};
ghost use Rattle.request_frames.specs.Batch.{counted as counted_of, with_rand as rand_of};
ghost use Rattle.request_frames.specs.Batch.{with_key as key_of, with_context as context_of};
ghost use Rattle.request_frames.specs.Batch.{with_lane as lane_of, with_call as call_of};
ghost use Rattle.request_frames.specs.Batch.{with_line as line_of, may_stand};
ghost use Rattle.request_frames.specs.Firsts.{with_first};
ghost use Rattle.request_frames.specs.Added.{with_added as added_of, with_retired as retired_of};
ghost use Rattle.request_frames.specs.Drafts.{plan_of, pool_size, IsKept};

use crate::draft::BatchDraft;
use crate::key_lines::{read_key, read_rand};
use crate::key_words::KeyWord;
use crate::words::{CallWord, ContextWord, LineWord};
use crate::{call_lines, contexts, names};
use batch_plans::CallLine;
use batch_plans::limits::{MOST_CONTEXTS, MOST_KEYS};
use field_text::{Pieces, Reason, Stop};

// One more behind others, of which there are so many at most.
fn push_within<T: Drop>(list: &mut Vec<T>, last: T, most: usize) -> Result<(), Stop>
    ensures read { Gives (λ _. vec_len list.old + 1) result (at_most most (vec_len list.old + 1)) }
    ensures pushed { OnOk result (list.new.items ≡ list.old.items ++ last ∷ []) }
{
    if list.len() >= most {
        return Err(Stop::Bad(Reason::Count));
    }
    Ok(list.push(last)?)
}

impl BatchDraft {
    // A call of the open lane, where the counts are within their limits with it.
    fn counted(&mut self, call: CallLine) -> Result<(), Stop>
        requires kept { IsKept self.old }
        requires open { self.old.lanes.is_open ≡ true }
        ensures read { Gives (λ _. plan_of self.new) result (counted_of (plan_of self.old) call) }
        ensures kept { OnOk result (IsKept self.new) }
        ensures added { OnOk result
            (self.new.lanes.item_count ≡ self.old.lanes.item_count + items_of call) }
        ensures pool { self.new.pool.items ≡ self.old.pool.items }
    {
        self.lanes.push(call)
    }

    // `rand ..`
    #[tactic(auto, unfolding(crate::specs::Batch::with_rand))]
    fn with_rand(&mut self, fields: &mut Pieces) -> Result<(), Stop>
        requires room { vec_len self.old.pool + sum_by length fields.old ≤ most_input }
        requires kept { IsKept self.old }
        ensures read { Gives (λ _. plan_of self.new) result
            (rand_of (plan_of self.old) fields.old) }
        ensures kept { OnOk result (IsKept self.new) }
        ensures size { OnOk result
            (vec_len self.new.pool ≤ vec_len self.old.pool + sum_by length fields.old) }
    {
        let seed = read_rand(self.alloc, fields)?;
        self.seed = Some(seed);
        Ok(())
    }

    // A key line.
    #[tactic(auto, unfolding(crate::specs::Batch::with_key))]
    fn with_key(&mut self, word: KeyWord, fields: &mut Pieces) -> Result<(), Stop>
        requires room { vec_len self.old.pool + sum_by length fields.old ≤ most_input }
        requires kept { IsKept self.old }
        ensures read { Gives (λ _. plan_of self.new) result
            (key_of (plan_of self.old) word fields.old) }
        ensures kept { OnOk result (IsKept self.new) }
        ensures size { OnOk result
            (vec_len self.new.pool ≤ vec_len self.old.pool + sum_by length fields.old) }
    {
        let key = read_key(word, &mut self.pool, fields)?;
        push_within(&mut self.keys, key, MOST_KEYS)
    }

    // A context line.
    #[tactic(auto, unfolding(crate::specs::Batch::with_context))]
    fn with_context(&mut self, word: ContextWord, fields: &mut Pieces) -> Result<(), Stop>
        requires room { vec_len self.old.pool + sum_by length fields.old ≤ most_input }
        requires kept { IsKept self.old }
        ensures read { Gives (λ _. plan_of self.new) result
            (context_of (plan_of self.old) word fields.old) }
        ensures kept { OnOk result (IsKept self.new) }
        ensures size { OnOk result
            (vec_len self.new.pool ≤ vec_len self.old.pool + sum_by length fields.old) }
    {
        let context = contexts::context(word, &mut self.pool, fields)?;
        push_within(&mut self.contexts, context, MOST_CONTEXTS)
    }

    // `lane`
    #[tactic(auto, using(crate::proofs::Lanes::lane_facts), unfolding(crate::specs::Batch::with_lane))]
    fn with_lane(&mut self, fields: &Pieces) -> Result<(), Stop>
        requires kept { IsKept self.old }
        ensures read { Gives (λ _. plan_of self.new) result
            (lane_of (plan_of self.old) fields.now) }
        ensures kept { OnOk result (IsKept self.new) }
        ensures pool { self.new.pool.items ≡ self.old.pool.items }
    {
        fields.exactly(0)?;
        self.lanes.open(self.alloc)
    }

    // `unsealall ..`: its items go behind those of the plan once they are counted.
    #[tactic(auto, unfolding(crate::specs::Firsts::with_first, crate::specs::Batch::counted))]
    fn with_several(&mut self, names: bool, fields: &mut Pieces) -> Result<(), Stop>
        requires room { vec_len self.old.pool + sum_by length fields.old ≤ most_input }
        requires few { length fields.old ≤ most_input }
        requires kept { IsKept self.old }
        requires open { self.old.lanes.is_open ≡ true }
        ensures read { Gives (λ _. plan_of self.new) result
            (with_first names (plan_of self.old) fields.old) }
        ensures kept { OnOk result (IsKept self.new) }
        ensures size { OnOk result
            (vec_len self.new.pool ≤ vec_len self.old.pool + sum_by length fields.old) }
    {
        let (context, items) = call_lines::unseal_all(self.alloc, names, &mut self.pool, fields)?;
        let first = self.items.len() as u32;
        let count = items.len() as u32;
        self.counted(CallLine::UnsealAll {
            context,
            first,
            count,
        })?;
        self.items.extend_from_slice(items.as_slice())?;
        Ok(())
    }

    // A call line.
    #[tactic(auto, unfolding(crate::specs::Batch::with_one))]
    fn with_call(&mut self, names: bool, word: CallWord, fields: &mut Pieces) -> Result<(), Stop>
        requires room { vec_len self.old.pool + sum_by length fields.old ≤ most_input }
        requires few { length fields.old ≤ most_input }
        requires kept { IsKept self.old }
        requires open { self.old.lanes.is_open ≡ true }
        ensures read { Gives (λ _. plan_of self.new) result
            (call_of names (plan_of self.old) word fields.old) }
        ensures kept { OnOk result (IsKept self.new) }
        ensures size { OnOk result
            (vec_len self.new.pool ≤ vec_len self.old.pool + sum_by length fields.old) }
    {
        let call = match word {
            CallWord::Seal => call_lines::seal(names, &mut self.pool, fields)?,
            CallWord::Unseal => call_lines::unseal(names, &mut self.pool, fields)?,
            CallWord::UnsealAll => return self.with_several(names, fields),
            CallWord::Export => call_lines::export(names, &mut self.pool, fields)?,
        };
        self.counted(call)
    }

    /// Takes the next line, of this word and with these further pieces. `names` says whether a call
    /// may name a context that lanes add: no call of a batch may.
    pub fn with_line(
        &mut self,
        names: bool,
        word: LineWord,
        fields: &mut Pieces,
    ) -> Result<(), Stop>
        requires room { pool_size self.old + sum_by length fields.old ≤ most_input }
        requires few { length fields.old ≤ most_input }
        requires kept { IsKept self.old }
        requires stands { may_stand word (plan_of self.old) ≡ true }
        ensures read { Gives (λ _. plan_of self.new) result
            (line_of names (plan_of self.old) word fields.old) }
        ensures size { OnOk result
            (pool_size self.new ≤ pool_size self.old + sum_by length fields.old) }
        ensures kept { OnOk result (IsKept self.new) }
    {
        match word {
            LineWord::Rand => self.with_rand(fields),
            LineWord::Key(word) => self.with_key(word, fields),
            LineWord::Context(word) => self.with_context(word, fields),
            LineWord::Lane => self.with_lane(fields),
            LineWord::Call(word) => self.with_call(names, word, fields),
        }
    }

    /// Takes the next line `add ..`, with these further pieces, those of `share`: a context behind all
    /// others, and the call that adds it. No batch has such a line.
    #[tactic(auto, unfolding(crate::specs::Added::with_added))]
    pub fn with_added(&mut self, fields: &mut Pieces) -> Result<(), Stop>
        requires room { pool_size self.old + sum_by length fields.old ≤ most_input }
        requires kept { IsKept self.old }
        requires stands { 0 < length (plan_of self.old).lanes }
        ensures read { Gives (λ _. plan_of self.new) result
            (added_of (plan_of self.old) fields.old) }
        ensures size { OnOk result
            (pool_size self.new ≤ pool_size self.old + sum_by length fields.old) }
        ensures kept { OnOk result (IsKept self.new) }
    {
        let context = contexts::context(ContextWord::Share, &mut self.pool, fields)?;
        push_within(&mut self.contexts, context, MOST_CONTEXTS)?;
        let name = self.added;
        self.added += 1;
        self.counted(CallLine::Add { name })
    }

    /// Takes the next line `retire +K`, with this further piece. No batch has such a line.
    #[tactic(auto, unfolding(crate::specs::Added::with_retired))]
    pub fn with_retired(&mut self, fields: &mut Pieces) -> Result<(), Stop>
        requires kept { IsKept self.old }
        requires stands { 0 < length (plan_of self.old).lanes }
        ensures read { Gives (λ _. plan_of self.new) result
            (retired_of (plan_of self.old) fields.old) }
        ensures size { OnOk result (pool_size self.new ≡ pool_size self.old) }
        ensures kept { OnOk result (IsKept self.new) }
    {
        fields.exactly(1)?;
        let name = names::name(fields)?;
        self.counted(CallLine::Retire { name })
    }
}
