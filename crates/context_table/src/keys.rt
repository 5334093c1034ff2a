//! The keys of a plan.

ghost use Rattle.std.specs.Prelude.{◌≡◌, ◌+◌, ◌*◌, ◌^◌, ◌<◌, ◌≤◌, [], ◌∷◌, ◌++◌, length, IfOk, OnOk, option_copied, slice_get};
ghost use Rattle.batch_plans.specs.Within.{IsSourceWithin, IsKeyWithin, IsWithinLimits};
ghost use Rattle.batch_plans.specs.KeyLines.{source_of};
ghost use Rattle.context_table.specs.Keys.{IsSourceReply, IsKeyReply, kem_of, given_bytes, key_by};
ghost use Rattle.context_table.specs.Contexts.{sender_exchange, recipient_exchange};
ghost use Rattle.context_table.specs.SetUp.{IsKeySetUp};
ghost use Rattle.context_table.specs.Slots.{view_of, held_view, held_in, HoldKeys};

use crate::exchanges::Exchange;
use crate::pairs::{Answered, KeyPair, given_public, given_secret, made_pair};
use crate::streams::key_stream;
use batch_plans::{
    ContextRefusal, KeyLine, KeyReplies, KeyReply, KeySet, KeySource, PlainList, Plan,
};
use rand_words::{SeedStream, Words};
use ring_core::{Multiplier, Sntrup761, Sntrup857};
use sntrup_kem::KemParams;
use std::alloc::{AllocError as OutOfMemory, Global};

/// A key that stands, of either parameter set.
#[derive(Drop)]
pub enum Key {
    Of761(KeyPair<Sntrup761>),
    Of857(KeyPair<Sntrup857>),
}

impl Key {
    /// A sender's exchange, as [`KeyPair::sender_exchange`].
    pub(crate) fn sender_exchange<M: Multiplier>(
        &self,
        alloc: Global,
        words: &mut SeedStream,
        mult: &M,
    ) -> Result<Exchange, OutOfMemory>
        requires { ⟦<SeedStream as Words>⟧.place words.old ≡ 0 }
        ensures { IfOk result (λ e. sender_exchange (⟦<SeedStream as Words>⟧.word words.old)
            (Some (view_of self.now)) ≡ Ok e) }
    {
        match self {
            Key::Of761(pair) => pair.sender_exchange(alloc, words, mult),
            Key::Of857(pair) => pair.sender_exchange(alloc, words, mult),
        }
    }

    /// A recipient's exchange, as [`KeyPair::recipient_exchange`].
    pub(crate) fn recipient_exchange<M: Multiplier>(
        &self,
        alloc: Global,
        enc: Option<&[u8]>,
        mult: &M,
    ) -> Result<Result<Exchange, ContextRefusal>, OutOfMemory>
        ensures { IfOk result (λ e. e
            ≡ recipient_exchange (Some (view_of self.now)) (option_copied enc.entry)) }
    {
        match self {
            Key::Of761(pair) => pair.recipient_exchange(alloc, enc, mult),
            Key::Of857(pair) => pair.recipient_exchange(alloc, enc, mult),
        }
    }
}

/// What a key line is answered, and the key where it stands.
#[derive(Drop)]
struct AnsweredKey {
    reply: KeyReply,
    key: Option<Key>,
}

fn of_761(answered: Answered<Sntrup761>) -> AnsweredKey
    ensures reply { result.reply ≡ answered.reply }
    ensures key { held_view result.key ≡ answered.pair }
{
    AnsweredKey {
        reply: answered.reply,
        key: answered.pair.map(|pair| Key::Of761(pair)),
    }
}

fn of_857(answered: Answered<Sntrup857>) -> AnsweredKey
    ensures reply { result.reply ≡ answered.reply }
    ensures key { held_view result.key ≡ answered.pair }
{
    AnsweredKey {
        reply: answered.reply,
        key: answered.pair.map(|pair| Key::Of857(pair)),
    }
}

// Puts an answer behind those so far.
fn keep(
    replies: &mut Vec<KeyReply>,
    slots: &mut Vec<Option<Key>>,
    answered: AnsweredKey,
) -> Result<(), OutOfMemory>
    ensures replies { OnOk result (replies.new.items ≡ replies.old.items ++ answered.reply ∷ []) }
    ensures slots { OnOk result (slots.new.items ≡ slots.old.items ++ answered.key ∷ []) }
{
    replies.push(answered.reply)?;
    slots.push(answered.key)?;
    Ok(())
}

// Answers the line of this number, of a key of one parameter set.
fn answered_of<S: KemParams, M: Multiplier>(
    alloc: Global,
    plan: &Plan,
    number: usize,
    source: KeySource,
    mult: &M,
) -> Result<Answered<S>, OutOfMemory>
    requires source { IsSourceWithin plan.now.seed (length plan.now.pool) source }
    requires number { number < 2 ^ 32 }
    ensures reply { IfOk result (λ a. IsSourceReply plan.now number S.set source a.reply) }
    ensures pair { IfOk result (λ a. a.pair
        ≡ key_by (record { id = S.ID; set = S.set }) (given_bytes plan.now.pool source) a.reply) }
{
    let pool = plan.pool.as_slice();
    match source {
        KeySource::Generate => made_pair(alloc, &mut key_stream(plan, number), mult),
        KeySource::Secret(bytes) => given_secret(alloc, bytes.of(pool)),
        KeySource::Peer(bytes) => given_public(alloc, bytes.of(pool)),
    }
}

// Answers the key line of this number.
fn answered_key<M: Multiplier>(
    alloc: Global,
    plan: &Plan,
    number: usize,
    line: &KeyLine,
    mult: &M,
) -> Result<AnsweredKey, OutOfMemory>
    requires line { IsKeyWithin plan.now.seed (length plan.now.pool) line.now }
    requires number { number < 2 ^ 32 }
    ensures reply { IfOk result (λ a. IsKeyReply plan.now number line.now a.reply) }
    ensures key { IfOk result (λ a. held_view a.key
        ≡ key_by (kem_of line.now) (given_bytes plan.now.pool (source_of line.now)) a.reply) }
{
    let source = line.source();
    match line.set() {
        KeySet::Sntrup761 => answered_of(alloc, plan, number, source, mult).map(of_761),
        KeySet::Sntrup857 => answered_of(alloc, plan, number, source, mult).map(of_857),
    }
}

/// The keys of a plan, each in the slot of its number; none where it was refused.
pub type KeySlots = PlainList<Option<Key>>;

/// The replies to the key lines of a plan, and the keys that stand.
#[derive(Drop)]
pub struct KeyTable {
    pub replies: KeyReplies,
    pub slots: KeySlots,
}

impl KeyTable {
    /// The key of this number, where there is one and it stands.
    pub fn key(&self, number: u32) -> Option<&Key>
        ensures { held_view (option_copied result) ≡ held_in (slice_get self.now.slots number) }
    {
        self.slots.as_slice().get(number as usize)?.as_ref()
    }
}

/// Answers the key lines of a plan (NTRU Prime round 3, KeyGen), and keeps the keys that stand.
///
/// Key number k draws its words from stream 2k of the plan's seed; lines of all kinds are counted,
/// and refused ones too. A key that is given is not tested further than
/// [`SecretKey::from_bytes`](sntrup_kem::SecretKey::from_bytes) does.
pub fn key_table<M: Multiplier>(
    alloc: Global,
    plan: &Plan,
    mult: &M,
) -> Result<KeyTable, OutOfMemory>
    requires { IsWithinLimits plan.now }
    ensures key_set_up { IfOk result (λ t. IsKeySetUp plan.now t.replies) }
    ensures slots { IfOk result (λ t. HoldKeys plan.now t.replies t.slots) }
{
    let mut replies = Vec::new(alloc);
    let mut slots = Vec::new(alloc);
    'keys: for (number, line) in plan.keys.as_slice().iter().enumerate() {
        let answered = answered_key(alloc, plan, number, line, mult)?;
        keep(&mut replies, &mut slots, answered)?;
    }
    Ok(KeyTable {
        replies: PlainList::from_vec(replies),
        slots: PlainList::from_vec(slots),
    })
}
