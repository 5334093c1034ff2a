//! Lanes that share a context in threads of their own, and messages from a sender to a recipient.

ghost use Rattle.std.specs.Prelude.{◌≡◌, ◌+◌, ◌-◌, ◌<◌, ◌≤◌, [], All, IfOk, OnOk, length, sum, vec_len};
ghost use Rattle.hpke_context.specs.Calls.{HasCipher, CanSeal, CanOpen};
ghost use Rattle.call_places.specs.Spans.{ItemIsInPool};
ghost use Rattle.context_books.specs.Openings.{IsTableFor};
ghost use Rattle.turn_lock.specs.Passes.{AllOf};
ghost use Rattle.stamp_counter.specs.Stamps.{IsNote};
ghost use Rattle.serving_tests.specs.Passes.{MayDraw};

use crate::expected::{array_of, assert_same};
use aes_gcm::Checks;
use call_places::{Item, Span, Step};
use context_books::{Book, Draw};
use hex::decode;
use hkdf_labelled::{Aead, Kdf, Suite};
use hpke_context::Context;
use key_schedule::{Mode, Role, schedule};
use shared_context::SharedContext;
use speculative_open::GuessTable;
use stamp_counter::{StampCounter, StampSeat};
use std::alloc::{AllocError as OutOfMemory, Global};
use std::process::Abort;
use std::sync::Wait;
use std::thread::{Threads, map_vec};
use turn_lock::{Pass, PassList};

// The suite, shared_secret and info of RFC 9180, A.1.1.
const SUITE: Suite = Suite {
    kem: 0x0020,
    kdf: Kdf::Sha256,
    aead: Aead::Aes128,
};

const SHARED_SECRET: &str = "fe0e18c9f024ce43799ae393c7e8fe8fce9d218875e8227b0187c04e7d2ea1fc";

const INFO: &[u8] = b"Ode on a Grecian Urn";

// One end's context, in mode base.
fn context_of(rt: &impl Abort, alloc: Global, role: Role, limit: u64) -> Context
    requires { 1 ≤ limit }
    ensures { (result.role ≡ role) × (result.limit ≡ limit) × HasCipher result }
{
    let shared_secret = decode(alloc, SHARED_SECRET).expect(rt, "hex");
    let secrets = schedule(&SUITE, Mode::Base, &shared_secret, INFO, b"", b"");
    Context::new(role, SUITE, secrets.expect(rt, "secrets"), limit)
}

// A pass with its lane's seat, for each pass of a new context.
fn hand_out(
    alloc: Global,
    context: &SharedContext,
    counter: &StampCounter,
    passes: &mut PassList,
    mut seat: StampSeat,
) -> Result<Vec<(Pass, StampSeat)>, OutOfMemory>
    requires passes { All (MayDraw context.now.lock 0 1000) passes.old.passes }
    requires seat { IsNote counter.now.id seat }
    ensures lanes { IfOk result (λ v. vec_len v ≡ length passes.old.passes) }
    ensures ready { IfOk result (λ v.
        All (λ l. MayDraw context.now.lock 0 1000 l.0 × IsNote counter.now.id l.1) v.items) }
    ensures left { OnOk result
        ((passes.new.passes ≡ []) × (passes.new.made ≡ passes.old.made)) }
{
    let mut lanes = Vec::new(alloc);
    while let Some(pass) = passes.take() {
        lanes.push((pass, counter.note(&mut seat)))?;
    }
    Ok(lanes)
}

// Draws at a thousand calls.
fn draw_each<R: Wait>(
    rt: &R,
    context: &SharedContext,
    counter: &StampCounter,
    lane: (Pass, StampSeat),
) -> Pass
    requires seals { CanSeal context.now.context }
    requires counter { context.now.lock.terms.counter ≡ counter.now.id }
    requires ready { MayDraw context.now.lock 0 1000 lane.0 × IsNote counter.now.id lane.1 }
    ensures { result.lock ≡ context.now.lock }
{
    let (mut pass, mut seat) = lane;
    for call in 0..1000u32 {
        let (_, next, note) = context.draw(rt, pass, counter, seat, call);
        pass = next;
        seat = note;
    }
    pass
}

// Each lane draws in a thread of its own.
fn draw_all<R: Threads + Wait + Sync>(
    rt: &R,
    context: &SharedContext,
    counter: &StampCounter,
    lanes: Vec<(Pass, StampSeat)>,
) -> Result<Vec<Pass>, OutOfMemory>
    requires seals { CanSeal context.now.context }
    requires counter { context.now.lock.terms.counter ≡ counter.now.id }
    requires ready { All (λ l. MayDraw context.now.lock 0 1000 l.0 × IsNote counter.now.id l.1) lanes.items }
    ensures { IfOk result (λ v. AllOf context.now.lock v.items × (vec_len v ≡ vec_len lanes)) }
{
    map_vec(
        rt,
        lanes,
        &|lane: (Pass, StampSeat)| -> Pass
            requires { CanSeal context.now.context
                × (context.now.lock.terms.counter ≡ counter.now.id)
                × MayDraw context.now.lock 0 1000 lane.0 × IsNote counter.now.id lane.1 }
            ensures { result.lock ≡ context.entry.now.lock }
        { draw_each(rt, context, counter, lane) },
    )
}

fn take_back(context: &SharedContext, list: &mut PassList, mut passes: Vec<Pass>)
    requires list { (list.old.passes ≡ []) × (vec_len passes ≤ list.old.made) }
    requires lock { AllOf context.now.lock passes.items }
    ensures { AllOf context.now.lock list.new.passes
        × (length list.new.passes ≡ vec_len passes) }
{
    while let Some(pass) = passes.pop() {
        list.put(pass);
    }
}

// Whether the entries have the stamps from 0 on, and numbers as long as they are below LIMIT.
fn is_numbered(book: &Book, limit: u64) -> bool {
    let mut stamp = 0u64;
    for entry in book.entries() {
        let due = if stamp < limit {
            Step::Sealed
        } else {
            Step::SealLimit
        };
        if entry.stamp != stamp || entry.step != due {
            return false;
        }
        stamp = stamp.wrapping_add(1);
    }
    true
}

// A counter, a context of two lanes, which may add a thousand entries each, their passes, and a
// lane's seat.
fn two_lanes(rt: &impl Abort, alloc: Global) -> (StampCounter, SharedContext, PassList, StampSeat)
    ensures context { CanSeal result.1.context × (result.1.passes ≡ 2)
        × (result.1.lock.terms.counter ≡ result.0.id) × (result.0.all ≡ 2000)
        × (sum result.1.lock.terms.quotas ≡ 2000) }
    ensures passes { All (MayDraw result.1.lock 0 1000) result.2.passes
        × (length result.2.passes ≡ 2) × (result.2.made ≡ 2) }
    ensures seat { IsNote result.0.id result.3 }
{
    let (counter, mut seats) = StampCounter::new(alloc, &[2000, 0]).expect(rt, "memory");
    let seat = seats.take().expect(rt, "the context's seat");
    let lane_seat = seats.take().expect(rt, "a lane's seat");
    let context = context_of(rt, alloc, Role::Sender, 1500);
    let made = SharedContext::new(alloc, context, &[1000, 1000], seat);
    let (context, passes) = made.expect(rt, "memory");
    (counter, context, passes, lane_seat)
}

// The book once both lanes drew, and how many stamps were drawn.
fn drawn_by_two<R: Abort + Threads + Wait + Sync>(rt: &R, alloc: Global) -> (Book, u64) {
    let (counter, context, mut passes, lane_seat) = two_lanes(rt, alloc);
    let lanes = hand_out(alloc, &context, &counter, &mut passes, lane_seat);
    let used = draw_all(rt, &context, &counter, lanes.expect(rt, "memory"));
    take_back(&context, &mut passes, used.expect(rt, "memory"));
    let (_, book, seat) = context.close(passes);
    (book, counter.close(seat))
}

#[test]
fn two_lanes_draw_from_one_context(rt: HostRuntime) {
    let (book, stamps) = drawn_by_two(&rt, rt.alloc());
    assert_same(&rt, book.entries().len(), 2000, "how many entries");
    assert_same(&rt, book.seq(), 1500, "sequence number");
    assert!(rt; is_numbered(&book, 1500));
    assert_same(&rt, stamps, 2000, "stamps");
}

// pt of RFC 9180, A.1.1.1.
const TEXT: &[u8; 29] = b"Beauty is truth, truth beauty";

// The aads of RFC 9180, A.1.1.1, of the sequence numbers 0 and 1, and then the ciphertexts.
const POOL: &str = "436f756e742d30436f756e742d31\
    f938558b5d72f1a23810b4be2ab4f84331acc02fc97babc53a52ae8218a355a96d8770ac83d07bea87e13c512a\
    af2d7e9ac9ae7e270f46ba1f975be53c09f8d875bdc8535458c2494e8a6eab251c03d0c22a56b8ca42c2063b84";

// The export of RFC 9180, A.1.1.2, with an empty exporter_context.
const EXPORTED: &str = "3853fe2b4035195a573ffc53856e77058e15d9ea064de3e59f4961d0095250ee";

const ITEMS: [Item; 2] = [
    Item {
        aad: Span { start: 0, len: 7 },
        text: Span { start: 14, len: 45 },
    },
    Item {
        aad: Span { start: 7, len: 7 },
        text: Span { start: 59, len: 45 },
    },
];

// Draws a number and seals the text there. The lane has so many calls left, with this one.
fn seal_one<R: Abort + Wait>(
    rt: &R,
    context: &SharedContext,
    counter: &StampCounter,
    lane: (Pass, StampSeat),
    call: u32,
    left: u32,
    aad: &[u8],
) -> ([u8; 45], (Pass, StampSeat))
    requires seals { CanSeal context.now.context }
    requires counter { context.now.lock.terms.counter ≡ counter.now.id }
    requires may { MayDraw context.now.lock call left lane.0 × IsNote counter.now.id lane.1 }
    requires left { (0 < left) × (length aad.now ≡ 7) }
    ensures { MayDraw context.now.lock (call + 1) (left - 1) result.1.0
        × IsNote counter.now.id result.1.1 }
{
    let (pass, seat) = lane;
    let (drawn, pass, seat) = context.draw(rt, pass, counter, seat, call);
    let Draw::Number(number) = drawn else {
        panic!(rt; "a number");
    };
    assert!(rt; number < context.context().limit(), "a number below LIMIT");
    let mut ct = [0u8; 45];
    context.finish_seal(number, aad, TEXT, &mut ct);
    (ct, (pass, seat))
}

fn table_at<R: Abort + Threads + Sync>(
    rt: &R,
    alloc: Global,
    context: &Context,
    pool: &[u8],
    items: &[Item],
    guess: u64,
) -> GuessTable
    requires spans { All (ItemIsInPool (length pool.now)) items.now }
    requires guess { guess ≤ context.now.limit }
    ensures { IsTableFor context.now pool.now items.now result }
{
    let (Some(key), Some(base_nonce)) = (context.cipher(), context.base_nonce()) else {
        panic!(rt; "a cipher");
    };
    let mut table = GuessTable::with_room(alloc, items.len()).expect(rt, "memory");
    table.fill(rt, key, base_nonce, guess, context.limit(), pool, items);
    table
}

// Opens an item at the call after this one, with a guess that is looked up before.
fn open_one<R: Abort + Threads + Wait + Sync>(
    rt: &R,
    alloc: Global,
    context: &SharedContext,
    counter: &StampCounter,
    lane: (Pass, StampSeat),
    call: u32,
    left: u32,
    pool: &[u8; 104],
    item: Item,
) -> ([u8; 29], (Pass, StampSeat))
    requires opens { CanOpen context.now.context }
    requires counter { context.now.lock.terms.counter ≡ counter.now.id }
    requires may { MayDraw context.now.lock call left lane.0 × IsNote counter.now.id lane.1 }
    requires left { 0 < left }
    requires spans { ItemIsInPool 104 item × (item.text.len ≡ 45) }
    ensures { MayDraw context.now.lock (call + 2) (left - 1) result.1.0
        × IsNote counter.now.id result.1.1 }
{
    let (pass, seat) = lane;
    let items = [item];
    let (guess, pass) = context.peek(rt, pass);
    assert!(rt; guess <= context.context().limit(), "a guess up to LIMIT");
    let table = table_at(rt, alloc, context.context(), pool, &items, guess);
    let mut checks = Checks::new(rt);
    let mut steps = [Step::Failed];
    let (number, missed, pass, seat) = context.commit(
        rt,
        pass,
        counter,
        seat,
        call + 1,
        pool,
        &items,
        &table,
        &mut steps,
        &mut checks,
    );
    assert!(rt;
        steps[0] == Step::Opened && missed == 0,
        "it opens at the guess"
    );
    let mut text = [0u8; 29];
    context.finish_open(number, item.aad.of(pool), item.text.of(pool), &mut text);
    (text, (pass, seat))
}

// A counter, a context of one lane, which may add two entries, and the lane.
fn one_lane(
    rt: &impl Abort,
    alloc: Global,
    role: Role,
) -> (StampCounter, SharedContext, (Pass, StampSeat))
    ensures context { (result.1.context.role ≡ role) × HasCipher result.1.context
        × (result.1.lock.terms.counter ≡ result.0.id) }
    ensures lane { MayDraw result.1.lock 0 2 result.2.0 × IsNote result.0.id result.2.1 }
{
    let (counter, mut seats) = StampCounter::new(alloc, &[2, 0]).expect(rt, "memory");
    let seat = seats.take().expect(rt, "the context's seat");
    let lane_seat = seats.take().expect(rt, "the lane's seat");
    let context = context_of(rt, alloc, role, 9);
    let made = SharedContext::new(alloc, context, &[2], seat);
    let (context, mut passes) = made.expect(rt, "memory");
    let pass = passes.take().expect(rt, "the pass");
    (counter, context, (pass, lane_seat))
}

// Both messages, as the sender seals them.
fn sealed_both<R: Abort + Wait>(rt: &R, alloc: Global) -> [[u8; 45]; 2] {
    let (counter, sender, lane) = one_lane(rt, alloc, Role::Sender);
    let (first, lane) = seal_one(rt, &sender, &counter, lane, 0, 2, b"Count-0");
    let (second, _) = seal_one(rt, &sender, &counter, lane, 1, 1, b"Count-1");
    [first, second]
}

// Both texts, as the recipient opens them.
fn opened_both<R: Abort + Threads + Wait + Sync>(
    rt: &R,
    alloc: Global,
    pool: &[u8; 104],
) -> [[u8; 29]; 2] {
    let (counter, recipient, lane) = one_lane(rt, alloc, Role::Recipient);
    let [item, next] = ITEMS;
    let (first, lane) = open_one(rt, alloc, &recipient, &counter, lane, 0, 2, pool, item);
    let (second, _) = open_one(rt, alloc, &recipient, &counter, lane, 2, 1, pool, next);
    [first, second]
}

#[test]
fn what_one_end_sealed_the_other_opens(rt: HostRuntime) {
    let pool: [u8; 104] = array_of(&rt, POOL);
    let [first, second] = sealed_both(&rt, rt.alloc());
    assert_same(&rt, &first[..], &pool[14..59], "first");
    assert_same(&rt, &second[..], &pool[59..], "second");
    let texts = opened_both(&rt, rt.alloc(), &pool);
    assert_same(&rt, texts, [*TEXT; 2], "texts");
}

#[test]
fn an_export_is_that_published(rt: HostRuntime) {
    let (_, context, _) = one_lane(&rt, rt.alloc(), Role::Recipient);
    let mut exported = [0u8; 32];
    assert!(rt; context.export_into(b"", &mut exported).is_ok());
    let want: [u8; 32] = array_of(&rt, EXPORTED);
    assert_same(&rt, exported, want, "exported");
}
