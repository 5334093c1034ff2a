//! A context of RFC 9180, A.1.1, and messages that were sealed in it, opened by a new book.

ghost use Rattle.std.specs.Prelude.{◌≡◌, ◌≤◌, All, length, sum_by};
ghost use Rattle.key_schedule.specs.declared.modes.Role.{Role};
ghost use Rattle.hpke_context.specs.Contexts.{cipher_of};
ghost use Rattle.hpke_context.specs.Calls.{HasCipher};
ghost use Rattle.context_books.specs.Entries.{steps_from};
ghost use Rattle.call_places.specs.Spans.{ItemIsInPool};
ghost use Rattle.context_books.specs.Openings.{IsTableFor, unseals};
ghost use Rattle.batch_plans.specs.Room.{opened_room};
ghost use Rattle.context_tests.specs.SmallPlans.{IsOfTests};

use crate::expected::array_of;
use aes_gcm::Checks;
use call_places::{Entry, Item, Span, Step};
use context_books::Book;
use hkdf_labelled::{Aead, Kdf, Prk, Suite};
use hpke_context::Context;
use key_schedule::{CipherSecrets, Role, Secrets};
use speculative_open::GuessTable;
use std::alloc::Global;
use std::process::Abort;
use std::thread::Threads;

pub(crate) const SUITE: Suite = Suite {
    kem: 0x0020,
    kdf: Kdf::Sha256,
    aead: Aead::Aes128,
};

/// The context, by its key, base_nonce and exporter_secret.
pub(crate) fn context_of(rt: &impl Abort, role: Role, limit: u64) -> Context
    requires { 1 ≤ limit }
    ensures parts { IsOfTests role limit result }
    ensures cipher { HasCipher result }
{
    let exporter: [u8; 32] = array_of(
        rt,
        "45ff1c2e220db587171952c0592d5f5ebe103f1561a2614e38f2ffd47e99e3f8",
    );
    let secrets = Secrets {
        cipher: CipherSecrets::Aes128 {
            key: array_of(rt, "4531685d41d65f03dc48f6b8302c05b0"),
            base_nonce: array_of(rt, "56d890e5accaaf011cff4b7d"),
        },
        exporter: Prk::from_slice(&exporter),
    };
    Context::new(role, SUITE, secrets, limit)
}

/// Both aads and ciphertexts of RFC 9180, A.1.1.1, with the sequence numbers 0 and 1, and the second
/// ciphertext with the last bit of its tag changed.
const POOL: &str = "436f756e742d30436f756e742d31\
    f938558b5d72f1a23810b4be2ab4f84331acc02fc97babc53a52ae8218a355a96d8770ac83d07bea87e13c512a\
    af2d7e9ac9ae7e270f46ba1f975be53c09f8d875bdc8535458c2494e8a6eab251c03d0c22a56b8ca42c2063b84\
    af2d7e9ac9ae7e270f46ba1f975be53c09f8d875bdc8535458c2494e8a6eab251c03d0c22a56b8ca42c2063b85";

/// Their bytes.
pub(crate) fn pool_of(rt: &impl Abort) -> [u8; 149] {
    array_of(rt, POOL)
}

/// Those messages.
#[derive(Clone, Copy)]
pub(crate) enum Message {
    First,
    Second,
    Spoilt,
}

/// Where a message stands in the pool.
pub(crate) fn item(message: Message) -> Item
    ensures span { ItemIsInPool 149 result }
    ensures size { result.text.len ≡ 45 }
{
    let (aad, ct) = match message {
        Message::First => (0, 14),
        Message::Second => (7, 59),
        Message::Spoilt => (7, 104),
    };
    Item {
        aad: Span { start: aad, len: 7 },
        text: Span { start: ct, len: 45 },
    }
}

/// The verdicts on items of a pool around a guess.
pub(crate) fn table_for<R: Abort + Threads + Sync>(
    rt: &R,
    alloc: Global,
    context: &Context,
    pool: &[u8],
    items: &[Item],
    guess: u64,
) -> GuessTable
    requires spans { All (ItemIsInPool (length pool.now)) items.now }
    requires guess { guess ≤ context.now.limit }
    requires few { length items.now ≤ 4096 }
    ensures { IsTableFor context.now pool.now items.now result }
{
    let (Some(key), Some(base_nonce)) = (context.cipher(), context.base_nonce()) else {
        panic!(rt; "a cipher");
    };
    let mut table = GuessTable::with_room(alloc, items.len()).expect(rt, "memory");
    table.fill(rt, key, base_nonce, guess, context.limit(), pool, items);
    table
}

/// Where three messages stand in the pool.
pub(crate) fn items_of(messages: [Message; 3]) -> [Item; 3]
    ensures spans { All (ItemIsInPool 149) result }
    ensures room { sum_by opened_room result ≤ 87 }
{
    let [first, second, third] = messages;
    [item(first), item(second), item(third)]
}

// The lane and the call that three items are opened in, and the stamp of the first of them.
pub(crate) const LANE: u32 = 0;

pub(crate) const CALL: u32 = 4;

pub(crate) const FIRST_STAMP: u64 = 7;

/// What became of three items, opened one after another.
#[derive(Drop)]
pub(crate) struct Settled {
    /// The number that was due before them, and the one that is due after them.
    pub(crate) first: u64,
    pub(crate) due: u64,
    pub(crate) steps: [Step; 3],
    /// What the book has written down.
    pub(crate) entries: Vec<Entry>,
    /// How many of their numbers the guess missed, and how many tags were checked again.
    pub(crate) missed: u32,
    pub(crate) checked: u64,
}

/// Opens three items by a new book, with the verdicts around a guess.
pub(crate) fn settle_three<R: Abort + Threads + Sync>(
    rt: &R,
    alloc: Global,
    context: &Context,
    pool: &[u8],
    items: &[Item; 3],
    guess: u64,
) -> Settled
    requires cipher { HasCipher context.now }
    requires limit { 1 ≤ context.now.limit }
    requires guess { guess ≤ context.now.limit }
    requires spans { All (ItemIsInPool (length pool.now)) items.now }
    ensures { result.steps
        ≡ steps_from (cipher_of context.now) result.first (unseals pool.now items.now) }
{
    let table = table_for(rt, alloc, context, pool, items, guess);
    let mut book = Book::new(alloc, context.limit(), &[3]).expect(rt, "memory");
    let first = book.seq();
    let mut steps = [Step::SealLimit; 3];
    let mut checks = Checks::new(rt);
    let missed = book.settle(
        context,
        pool,
        items,
        LANE,
        CALL,
        FIRST_STAMP,
        &table,
        &mut steps,
        &mut checks,
    );
    Settled {
        first,
        due: book.seq(),
        steps,
        entries: Vec::from_slice(alloc, book.entries()).expect(rt, "memory"),
        missed,
        checked: checks.count(),
    }
}
