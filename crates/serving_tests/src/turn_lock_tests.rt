//! Runs of the lock by threads, over a plain list of entries.

ghost use Rattle.std.specs.Prelude.{◌≡◌, ◌+◌, ◌<◌, ◌≤◌, ◌++◌, [], ◌∷◌, ◌⊎◌, length, vec_len, All, IfOk, OnOk};
ghost use Rattle.call_places.specs.declared.entries.Step.TheVariants.{Sealed};
ghost use Rattle.call_places.specs.Orders.{last_of};
ghost use Rattle.turn_lock.specs.Passes.{AllOf};
ghost use Rattle.serving_tests.specs.Passes.{IsNew};

use crate::expected::assert_same;
use call_places::{Entry, Listed, Place, Step};
use std::alloc::{AllocError as OutOfMemory, Global};
use std::hint;
use std::process::Abort;
use std::sync::Wait;
use std::thread::{Threads, join, map_vec};
use turn_lock::{Pass, PassList, TurnLock, each_step_keeps_the_rule, the_rule_tells_seats_apart};

#[derive(Drop)]
struct Log {
    list: Vec<Entry>,
}

impl Listed for Log {
    ghost use Rattle.call_places.specs.Terms.{no_terms};

    ghost entries = { λ l. l.list.items };

    ghost terms = { λ _. no_terms };

    fn last_entry(&self) -> Option<Entry> {
        last(self.list.as_slice())
    }
}

#[tactic(auto, using(call_places::proofs::Last::last_is_last_of))]
fn last(list: &[Entry]) -> Option<Entry>
    ensures { result ≡ last_of list.now }
{
    list.last().copied()
}

// Adds an entry, if there is memory.
fn note(log: &mut Log, lane: u32, call: u32)
    ensures { (log.new.list.items ≡ log.old.list.items) ⊎ (log.new.list.items ≡ log.old.list.items
        ++ (record {
          place = record { lane = lane; call = call; item = 0 };
          stamp = 0;
          step = Sealed;
        }) ∷ []) }
{
    let entry = Entry {
        place: Place {
            lane,
            call,
            item: 0,
        },
        stamp: 0,
        step: Step::Sealed,
    };
    let _ = log.list.push(entry);
}

// Keeps its turn for so many pauses.
fn pause(pauses: u32) {
    for _ in 0..pauses {
        hint::spin_loop();
    }
}

// One turn, which adds an entry of this call.
fn add_one<R: Wait>(rt: &R, lock: &TurnLock<Log>, pass: Pass, call: u32, pauses: u32) -> Pass
    requires lock { pass.lock ≡ lock.now.lock }
    requires call { (pass.turns < 4294967295) × (pass.next_call ≤ call) × (call < 4294967295) }
    ensures lock { (result.lock ≡ lock.now.lock) × (result.turns ≡ pass.turns + 1)
        × (result.next_call ≤ call + 1) }
{
    let lane = pass.number();
    let mut held = lock.enter(rt, pass);
    note(held.value(), lane, call);
    pause(pauses);
    lock.leave(held)
}

fn add_each<R: Wait>(rt: &R, lock: &TurnLock<Log>, mut pass: Pass, each: u32, pauses: u32) -> Pass
    requires new { IsNew lock.now.lock pass }
    requires each { each < 4294967295 }
    ensures { result.lock ≡ lock.now.lock }
{
    for call in 0..each {
        pass = add_one(rt, lock, pass, call, pauses);
    }
    pass
}

// Each pass adds its entries in a thread of its own.
fn add_all<R: Threads + Wait + Sync>(
    rt: &R,
    lock: &TurnLock<Log>,
    passes: Vec<Pass>,
    each: u32,
    pauses: u32,
) -> Result<Vec<Pass>, OutOfMemory>
    requires new { All (IsNew lock.now.lock) passes.items }
    requires each { each < 4294967295 }
    ensures { IfOk result (λ v. AllOf lock.now.lock v.items × (vec_len v ≡ vec_len passes)) }
{
    map_vec(
        rt,
        passes,
        &|pass: Pass| -> Pass
            requires { IsNew lock.now.lock pass × (each < 4294967295) }
            ensures { result.lock ≡ lock.entry.now.lock }
        { add_each(rt, lock, pass, each, pauses) },
    )
}

// The passes of a new lock, the lowest first.
fn hand_out(
    alloc: Global,
    lock: &TurnLock<Log>,
    list: &mut PassList,
) -> Result<Vec<Pass>, OutOfMemory>
    requires { All (IsNew lock.now.lock) list.old.passes }
    ensures new { IfOk result (λ v. All (IsNew lock.now.lock) v.items
        × (vec_len v ≡ length list.old.passes)) }
    ensures left { OnOk result ((list.new.passes ≡ []) × (list.new.made ≡ list.old.made)) }
{
    let mut passes = Vec::new(alloc);
    while let Some(pass) = list.take() {
        passes.push(pass)?;
    }
    Ok(passes)
}

fn take_back(lock: &TurnLock<Log>, list: &mut PassList, mut passes: Vec<Pass>)
    requires list { (list.old.passes ≡ []) × (vec_len passes ≤ list.old.made) }
    requires lock { AllOf lock.now.lock passes.items }
    ensures { AllOf lock.now.lock list.new.passes × (length list.new.passes ≡ vec_len passes) }
{
    while let Some(pass) = passes.pop() {
        list.put(pass);
    }
}

// The log once each of so many passes added so many entries.
fn filled<R: Abort + Threads + Wait + Sync>(
    rt: &R,
    alloc: Global,
    passes: u32,
    each: u32,
    pauses: u32,
) -> Log
    requires passes { (0 < passes) × (passes < 65536) }
    requires each { each < 4294967295 }
{
    let entries = Vec::with_capacity(alloc, passes as usize * each as usize);
    let log = Log {
        list: entries.expect(rt, "memory"),
    };
    let (lock, mut list) = TurnLock::new(alloc, log, passes).expect(rt, "memory");
    let new = hand_out(alloc, &lock, &mut list).expect(rt, "memory");
    let used = add_all(rt, &lock, new, each, pauses).expect(rt, "memory");
    take_back(&lock, &mut list, used);
    lock.close(list)
}

// Whether each of at most 16 lanes has the calls from 0 on, in order.
fn is_in_order(log: &Log) -> bool {
    let mut next = [0u32; 16];
    for entry in &log.list {
        let lane = entry.place.lane as usize;
        if lane >= next.len() || entry.place.call != next[lane] {
            return false;
        }
        next[lane] = next[lane].wrapping_add(1);
    }
    true
}

fn assert_in_order(rt: &impl Abort, log: &Log, count: usize) {
    assert_same(rt, log.list.len(), count, "how many are listed");
    assert!(rt; is_in_order(log));
}

#[test]
fn each_lane_has_its_calls_in_order(rt: HostRuntime) {
    let two = filled(&rt, rt.alloc(), 2, 1000, 0);
    assert_in_order(&rt, &two, 2000);
    let sixteen = filled(&rt, rt.alloc(), 16, 200, 0);
    assert_in_order(&rt, &sixteen, 3200);
    let untouched = filled(&rt, rt.alloc(), 3, 0, 0);
    assert_same(&rt, untouched.list.len(), 0, "what was not listed");
}

// Each turn is longer than a pass looks for its own, so those that wait sleep.
#[test]
fn those_who_sleep_get_their_turns(rt: HostRuntime) {
    let log = filled(&rt, rt.alloc(), 8, 20, 20_000);
    assert_in_order(&rt, &log, 160);
}

#[test]
fn the_lowest_pass_is_taken_first(rt: HostRuntime) {
    let log = Log {
        list: Vec::new(rt.alloc()),
    };
    let (lock, mut passes) = TurnLock::new(rt.alloc(), log, 3).expect(&rt, "memory");
    let first = passes.take().expect(&rt, "the first pass");
    let second = passes.take().expect(&rt, "the second pass");
    let third = passes.take().expect(&rt, "the third pass");
    assert!(rt; passes.take().is_none());
    passes.put(second);
    passes.put(third);
    passes.put(first);
    for number in 0..3 {
        let pass = passes.take().expect(&rt, "a pass that was put back");
        let got = (pass.number(), pass.turns(), pass.next_call());
        assert_same(&rt, got, (number, 0, 0), "the pass");
    }
    let _ = lock;
    // The laws, at a concrete type.
    the_rule_tells_seats_apart::<Log>();
    each_step_keeps_the_rule::<Log>();
}

// Two threads share the lock of any value that may be sent, and passes are sent to them. Never run:
// that it is proved and compiled shows that any such lock may be shared and a pass sent.
fn visit_both<V: Listed + Send, R: Threads + Wait + Sync>(
    rt: &R,
    lock: &TurnLock<V>,
    first: Pass,
    second: Pass,
) -> (Pass, Pass)
    requires first { IsNew lock.now.lock first }
    requires second { IsNew lock.now.lock second }
    ensures { (result.0.lock ≡ lock.now.lock) × (result.1.lock ≡ lock.now.lock) }
{
    join(
        rt,
        move || -> Pass
            requires { IsNew lock.now.lock first }
            ensures { result.lock ≡ lock.entry.now.lock }
        { visit(rt, lock, first) },
        move || -> Pass
            requires { IsNew lock.now.lock second }
            ensures { result.lock ≡ lock.entry.now.lock }
        { visit(rt, lock, second) },
    )
}

fn visit<V: Listed, R: Wait>(rt: &R, lock: &TurnLock<V>, pass: Pass) -> Pass
    requires { IsNew lock.now.lock pass }
    ensures { result.lock ≡ lock.now.lock }
{
    let held = lock.enter(rt, pass);
    lock.leave(held)
}
