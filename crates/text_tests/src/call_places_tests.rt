ghost use Rattle.std.specs.Prelude.{◌≡◌, []};
ghost use Rattle.call_places.specs.Orders.{last_of};

use crate::expected::{assert_at, assert_same};
use call_places::{
    Act, Entry, Item, Listed, Mark, Place, Span, Step, a_name_is_live_until_it_is_retired,
    a_note_changes_its_own_name, later_entries_change_no_number,
};
use std::collections::LinkedList;

// A list of entries that anybody may add to.
#[derive(Drop)]
struct Log {
    entries: Vec<Entry>,
    limit: u64,
    quotas: LinkedList<u32>,
}

#[tactic(auto, using(call_places::proofs::Last::last_is_last_of))]
fn last_in(entries: &[Entry]) -> Option<Entry>
    ensures { result ≡ last_of entries.now }
{
    entries.last().copied()
}

impl Listed for Log {
    ghost entries = { λ log. log.entries.items };

    ghost terms = { λ log. record { limit = log.limit; quotas = log.quotas; counter = [] } };

    fn last_entry(&self) -> Option<Entry> {
        last_in(&self.entries)
    }
}

fn last_of_listed<V: Listed>(value: &V) -> Option<Entry> {
    value.last_entry()
}

fn entry(call: u32, step: Step) -> Entry {
    let place = Place {
        lane: 0,
        call,
        item: 0,
    };
    Entry {
        place,
        // A stamp that is no number of the place.
        stamp: 7 * u64::from(call),
        step,
    }
}

// RFC 9180, 5.2: the sequence number is raised where a message was sealed or opened.
const STEPS: [(Step, bool); 6] = [
    (Step::Sealed, true),
    (Step::SealLimit, false),
    (Step::Opened, true),
    (Step::Failed, false),
    (Step::OpenLimit, false),
    (
        Step::Note {
            name: 0,
            act: Act::Look,
            live: true,
        },
        false,
    ),
];

#[test]
fn only_a_seal_and_an_opening_raise_the_number(rt: HostRuntime) {
    for (step, advances) in STEPS {
        assert_at(&rt, step.advances(), advances, "step", step);
    }
}

#[test]
fn a_log_is_listed_and_shows_its_last_entry(rt: HostRuntime) {
    let alloc = rt.alloc();
    let mut log = Log {
        entries: Vec::new(alloc),
        limit: 2,
        quotas: LinkedList::new(alloc),
    };
    assert_same(&rt, last_of_listed(&log), None, "the last that is listed");
    let mut call = 0;
    for (step, _advances) in STEPS {
        let next = entry(call, step);
        log.entries.push(next).expect(&rt, "memory");
        assert_at(&rt, last_of_listed(&log), Some(next), "step", step);
        let mark = Mark {
            place: next.place,
            stamp: next.stamp,
        };
        assert_at(&rt, next.mark(), mark, "step", step);
        call = call.wrapping_add(1);
    }
    later_entries_change_no_number(&log.entries, &log.entries);
    a_note_changes_its_own_name();
    a_name_is_live_until_it_is_retired();
}

#[test]
fn an_item_names_bytes_of_its_pool(rt: HostRuntime) {
    let pool = b"aadtext";
    let item = Item {
        aad: Span { start: 0, len: 3 },
        text: Span { start: 3, len: 4 },
    };
    assert_same(&rt, item.aad.of(pool), b"aad".as_slice(), "aad");
    assert_same(&rt, item.text.of(pool), b"text".as_slice(), "text");
}
