//! Books over published messages: numbers that are drawn, and openings with verdicts that were found
//! ahead of time.

use crate::expected::{assert_at, assert_same};
use crate::messages::{
    CALL, FIRST_STAMP, LANE, Message, Settled, context_of, items_of, pool_of, settle_three,
};
use call_places::{Entry, Listed, Place, Step};
use context_books::{Book, Draw};
use key_schedule::Role;
use std::alloc::Global;
use std::process::Abort;
use std::thread::Threads;

struct OpeningCase {
    name: &'static str,
    limit: u64,
    guess: u64,
    messages: [Message; 3],
    steps: [Step; 3],
    missed: u32,
    seq: u64,
}

// Own, by hand: item i is checked ahead at the numbers guess + i - k up to LIMIT, for k from 0 to
// min(i, 3), and is opened at the number of messages that were opened before it.
const OPENINGS: [OpeningCase; 5] = [
    OpeningCase {
        name: "the number that is due was guessed",
        limit: 9,
        guess: 0,
        messages: [Message::First, Message::Spoilt, Message::Second],
        steps: [Step::Opened, Step::Failed, Step::Opened],
        missed: 0,
        seq: 2,
    },
    OpeningCase {
        name: "no number is near the guess",
        limit: 9,
        guess: 9,
        messages: [Message::First, Message::Spoilt, Message::Second],
        steps: [Step::Opened, Step::Failed, Step::Opened],
        missed: 3,
        seq: 2,
    },
    OpeningCase {
        name: "the guess is one too high",
        limit: 9,
        guess: 1,
        messages: [Message::First, Message::Second, Message::Spoilt],
        steps: [Step::Opened, Step::Opened, Step::Failed],
        missed: 1,
        seq: 2,
    },
    OpeningCase {
        name: "a message is sent twice",
        limit: 9,
        guess: 0,
        messages: [Message::First, Message::First, Message::Second],
        steps: [Step::Opened, Step::Failed, Step::Opened],
        missed: 0,
        seq: 2,
    },
    OpeningCase {
        name: "the number comes to LIMIT",
        limit: 1,
        guess: 0,
        messages: [Message::First, Message::Second, Message::Spoilt],
        steps: [Step::Opened, Step::OpenLimit, Step::Failed],
        missed: 0,
        seq: 1,
    },
];

fn expect(rt: &impl Abort, settled: &Settled, case: &OpeningCase) {
    let name = case.name;
    assert_same(rt, settled.steps, case.steps, name);
    assert_same(rt, settled.missed, case.missed, name);
    assert_same(rt, settled.checked, u64::from(settled.missed), name);
    assert_same(rt, settled.due, case.seq, name);
}

fn expect_entries(rt: &impl Abort, entries: &[Entry], case: &OpeningCase) {
    assert_same(rt, entries.len(), 3, case.name);
    for (i, (entry, step)) in entries.iter().zip(&case.steps).enumerate() {
        let want = Entry {
            place: Place {
                lane: LANE,
                call: CALL,
                item: i as u32,
            },
            stamp: FIRST_STAMP.wrapping_add(i as u64),
            step: *step,
        };
        assert_at(rt, *entry, want, case.name, i);
    }
}

#[test]
fn items_are_opened_one_after_another(rt: HostRuntime) {
    for case in &OPENINGS {
        assert_opening(&rt, rt.alloc(), case);
    }
}

fn assert_opening<R: Abort + Threads + Sync>(rt: &R, alloc: Global, case: &OpeningCase) {
    let pool = pool_of(rt);
    let (limit, guess) = (case.limit, case.guess);
    assert!(rt; 1 <= limit && guess <= limit);
    let context = context_of(rt, Role::Recipient, limit);
    let items = items_of(case.messages);
    let settled = settle_three(rt, alloc, &context, &pool, &items, guess);
    expect(rt, &settled, case);
    expect_entries(rt, settled.entries.as_slice(), case);
}

const SEALED: Entry = Entry {
    place: Place {
        lane: 1,
        call: 4,
        item: 0,
    },
    stamp: 3,
    step: Step::Sealed,
};

const REFUSED: Entry = Entry {
    place: Place {
        lane: 0,
        call: 4,
        item: 0,
    },
    stamp: 5,
    step: Step::SealLimit,
};

#[test]
fn numbers_are_drawn_up_to_the_limit(rt: HostRuntime) {
    let mut book = Book::new(rt.alloc(), 1, &[1, 1]).expect(&rt, "memory");
    let drawn = book.draw(SEALED.place, 3);
    assert_same(&rt, drawn, Draw::Number(0), "the last number");
    let drawn = book.draw(REFUSED.place, 5);
    assert_same(&rt, drawn, Draw::Limit, "past the limit");
    assert_same(&rt, book.seq(), 1, "sequence number");
    assert_same(&rt, book.entries(), &[SEALED, REFUSED][..], "entries");
    assert_same(&rt, book.last_entry(), Some(REFUSED), "last entry");
}
