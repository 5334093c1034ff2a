//! Notes of one lane, one after another, and of lanes that note at once.

ghost use Rattle.std.specs.Prelude.{◌≡◌, ◌+◌, ◌-◌, ◌<◌, ◌≤◌, [], All, IfOk, OnOk, length, vec_len};
ghost use Rattle.turn_lock.specs.Passes.{AllOf};
ghost use Rattle.stamp_counter.specs.Stamps.{IsNote};
ghost use Rattle.serving_tests.specs.Passes.{MayDraw};

use crate::expected::assert_same;
use call_places::{Act, Entry, Place, Step};
use live_table::LiveTable;
use stamp_counter::{StampCounter, StampSeat};
use std::alloc::{AllocError as OutOfMemory, Global};
use std::process::Abort;
use std::sync::Wait;
use std::thread::{Threads, map_vec};
use turn_lock::{Pass, PassList};

// Own: an act on a name, and whether the name was live before. It is live from its Add to the next
// Retire, whatever is done to another.
static NOTES: [(Act, u32, bool); 14] = [
    (Act::Look, 0, false),
    (Act::Add, 0, false),
    (Act::Look, 0, true),
    (Act::Look, 1, false),
    (Act::Add, 1, false),
    (Act::Retire, 0, true),
    (Act::Look, 0, false),
    (Act::Add, 0, false),
    (Act::Look, 1, true),
    (Act::Add, 0, true),
    (Act::Look, 0, true),
    (Act::Retire, 255, false),
    (Act::Add, 255, false),
    (Act::Look, 255, true),
];

// Notes each case at a call of its own, and compares the answers.
fn note_cases<R: Abort + Wait>(
    rt: &R,
    table: &LiveTable,
    counter: &StampCounter,
    lane: (Pass, StampSeat),
) -> Pass
    requires names { table.now.names ≡ 256 }
    requires counter { table.now.lock.terms.counter ≡ counter.now.id }
    requires ready { MayDraw table.now.lock 0 14 lane.0 × IsNote counter.now.id lane.1 }
    ensures { result.lock ≡ table.now.lock }
{
    let (mut pass, mut seat) = lane;
    for call in 0..14u32 {
        let (act, name, live) = NOTES[call as usize];
        assert!(rt; name <= 255, "a name of the table");
        let (told, next, note) = table.note(rt, pass, counter, seat, call, name, act);
        assert_same(rt, told, live, "an answer of the rows");
        pass = next;
        seat = note;
    }
    pass
}

// The entries of a new table once each case is noted, and how many stamps were drawn.
fn entries_of_cases<R: Abort + Wait>(rt: &R, alloc: Global) -> (Vec<Entry>, u64) {
    let (counter, mut seats) = StampCounter::new(alloc, &[14, 0]).expect(rt, "memory");
    let seat = seats.take().expect(rt, "the table's seat");
    let lane_seat = seats.take().expect(rt, "the lane's seat");
    let made = LiveTable::new(alloc, 256, &[14], seat);
    let (table, mut passes) = made.expect(rt, "memory");
    let pass = passes.take().expect(rt, "the pass");
    let pass = note_cases(rt, &table, &counter, (pass, lane_seat));
    passes.put(pass);
    let (notes, seat) = table.close(passes);
    (notes.into_vec(), counter.close(seat))
}

#[test]
fn a_look_finds_what_was_added_and_not_retired(rt: HostRuntime) {
    let (entries, stamps) = entries_of_cases(&rt, rt.alloc());
    assert_same(&rt, entries.len(), NOTES.len(), "how many entries");
    let mut call = 0u32;
    for (act, name, live) in NOTES {
        let place = Place {
            lane: 0,
            call,
            item: 0,
        };
        let wanted = Entry {
            place,
            stamp: u64::from(call),
            step: Step::Note { name, act, live },
        };
        assert_same(&rt, entries.get(call as usize), Some(&wanted), "entry");
        call = call.wrapping_add(1);
    }
    assert_same(&rt, stamps, 14, "stamps");
}

// A pass with its lane's seat, for each pass of a new table.
fn hand_out(
    alloc: Global,
    table: &LiveTable,
    counter: &StampCounter,
    passes: &mut PassList,
    mut seat: StampSeat,
) -> Result<Vec<(Pass, StampSeat)>, OutOfMemory>
    requires passes { All (MayDraw table.now.lock 0 300) passes.old.passes }
    requires seat { IsNote counter.now.id seat }
    ensures lanes { IfOk result (λ v. vec_len v ≡ length passes.old.passes) }
    ensures ready { IfOk result (λ v.
        All (λ l. MayDraw table.now.lock 0 300 l.0 × IsNote counter.now.id l.1) v.items) }
    ensures left { OnOk result
        ((passes.new.passes ≡ []) × (passes.new.made ≡ passes.old.made)) }
{
    let mut lanes = Vec::new(alloc);
    while let Some(pass) = passes.take() {
        lanes.push((pass, counter.note(&mut seat)))?;
    }
    Ok(lanes)
}

// Adds one of two names, looks it up and retires it, and goes on with the other: a hundred times.
fn note_each<R: Wait>(
    rt: &R,
    table: &LiveTable,
    counter: &StampCounter,
    lane: (Pass, StampSeat),
) -> Pass
    requires names { table.now.names ≡ 2 }
    requires counter { table.now.lock.terms.counter ≡ counter.now.id }
    requires ready { MayDraw table.now.lock 0 300 lane.0 × IsNote counter.now.id lane.1 }
    ensures { result.lock ≡ table.now.lock }
{
    let (mut pass, mut seat) = lane;
    for call in 0..300u32 {
        let act = match call % 3 {
            0 => Act::Add,
            1 => Act::Look,
            _ => Act::Retire,
        };
        let (_, next, note) = table.note(rt, pass, counter, seat, call, call / 3 % 2, act);
        pass = next;
        seat = note;
    }
    pass
}

// Each lane notes in a thread of its own.
fn note_all<R: Threads + Wait + Sync>(
    rt: &R,
    table: &LiveTable,
    counter: &StampCounter,
    lanes: Vec<(Pass, StampSeat)>,
) -> Result<Vec<Pass>, OutOfMemory>
    requires names { table.now.names ≡ 2 }
    requires counter { table.now.lock.terms.counter ≡ counter.now.id }
    requires ready { All (λ l. MayDraw table.now.lock 0 300 l.0 × IsNote counter.now.id l.1) lanes.items }
    ensures { IfOk result (λ v. AllOf table.now.lock v.items × (vec_len v ≡ vec_len lanes)) }
{
    map_vec(
        rt,
        lanes,
        &|lane: (Pass, StampSeat)| -> Pass
            requires { (table.now.names ≡ 2) × (table.now.lock.terms.counter ≡ counter.now.id)
                × MayDraw table.now.lock 0 300 lane.0 × IsNote counter.now.id lane.1 }
            ensures { result.lock ≡ table.entry.now.lock }
        { note_each(rt, table, counter, lane) },
    )
}

fn take_back(table: &LiveTable, list: &mut PassList, mut passes: Vec<Pass>)
    requires list { (list.old.passes ≡ []) × (vec_len passes ≤ list.old.made) }
    requires lock { AllOf table.now.lock passes.items }
    ensures { AllOf table.now.lock list.new.passes
        × (length list.new.passes ≡ vec_len passes) }
{
    while let Some(pass) = passes.pop() {
        list.put(pass);
    }
}

// Whether each of four lanes has its calls in order, stamps run from 0 on, and each note of the two
// names tells what the notes before it left.
fn is_told(entries: &[Entry]) -> bool {
    let mut live = [false; 2];
    let mut calls = [0u32; 4];
    let mut stamp = 0u64;
    for entry in entries {
        let Step::Note {
            name,
            act,
            live: told,
        } = entry.step
        else {
            return false;
        };
        let name = name as usize;
        let lane = entry.place.lane as usize;
        if name > 1 || lane > 3 || entry.place.call != calls[lane] || entry.stamp != stamp {
            return false;
        }
        if told != live[name] {
            return false;
        }
        match act {
            Act::Add => live[name] = true,
            Act::Retire => live[name] = false,
            Act::Look => {}
        }
        calls[lane] = calls[lane].wrapping_add(1);
        stamp = stamp.wrapping_add(1);
    }
    true
}

// The entries of a new table once four lanes noted, and how many stamps were drawn.
fn entries_of_four<R: Abort + Threads + Wait + Sync>(rt: &R, alloc: Global) -> (Vec<Entry>, u64) {
    let (counter, mut seats) = StampCounter::new(alloc, &[1200, 0]).expect(rt, "memory");
    let seat = seats.take().expect(rt, "the table's seat");
    let lane_seat = seats.take().expect(rt, "a lane's seat");
    let made = LiveTable::new(alloc, 2, &[300, 300, 300, 300], seat);
    let (table, mut passes) = made.expect(rt, "memory");
    let lanes = hand_out(alloc, &table, &counter, &mut passes, lane_seat).expect(rt, "memory");
    let used = note_all(rt, &table, &counter, lanes).expect(rt, "memory");
    take_back(&table, &mut passes, used);
    let (notes, seat) = table.close(passes);
    (notes.into_vec(), counter.close(seat))
}

#[test]
fn four_lanes_note_at_once(rt: HostRuntime) {
    let (entries, stamps) = entries_of_four(&rt, rt.alloc());
    assert_same(&rt, entries.len(), 1200, "how many entries");
    assert!(rt; is_told(&entries));
    assert_same(&rt, stamps, 1200, "stamps");
}
