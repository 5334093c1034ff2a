//! Published messages at guessed numbers, and windows that end at LIMIT.

ghost use Rattle.std.specs.Prelude.{◌≡◌, ◌≤◌, All, length};
ghost use Rattle.call_places.specs.Spans.{ItemIsInPool};

use crate::expected::{array_of, assert_at, assert_same};
use crate::messages::{Message, item, pool_of};
use call_places::{Item, Span};
use hkdf_labelled::Aead;
use hpke_aead::AeadKey;
use speculative_open::GuessTable;
use std::alloc::Global;
use std::process::Abort;
use std::thread::Threads;

// key and base_nonce of RFC 9180, A.1.1.
const KEY: &str = "4531685d41d65f03dc48f6b8302c05b0";

const BASE_NONCE: &str = "56d890e5accaaf011cff4b7d";

// A table that was filled at LIMIT before.
fn table_of<R: Abort + Threads + Sync>(
    rt: &R,
    alloc: Global,
    guess: u64,
    limit: u64,
    pool: &[u8],
    items: &[Item],
) -> GuessTable
    requires { All (ItemIsInPool (length pool.now)) items.now }
    ensures { length result.rows ≡ length items.now }
{
    let key: [u8; 16] = array_of(rt, KEY);
    let key = AeadKey::new(Aead::Aes128, &key);
    let base_nonce: [u8; 12] = array_of(rt, BASE_NONCE);
    let mut table = GuessTable::with_room(alloc, items.len()).expect(rt, "memory");
    table.fill(rt, &key, &base_nonce, limit, limit, pool, items);
    table.fill(rt, &key, &base_nonce, guess, limit, pool, items);
    table
}

struct TableCase {
    source: &'static str,
    guess: u64,
    limit: u64,
    looks: &'static [(usize, u64, Option<bool>)],
}

const LAST: u64 = u64::MAX;

// Item 0 is the first message, items 1 to 3 are the changed one, item 4 is the second.
static TABLES: [TableCase; 5] = [
    TableCase {
        source: "RFC 9180, A.1.1.1: each message opens at its own number alone",
        guess: 0,
        limit: 9,
        looks: &[
            (0, 0, Some(true)),
            (0, 1, None),
            (1, 0, Some(false)),
            (1, 1, Some(false)),
            (1, 2, None),
            (3, 0, Some(false)),
            (4, 0, None),
            (4, 1, Some(true)),
            (4, 2, Some(false)),
            (4, 4, Some(false)),
            (4, 5, None),
        ],
    },
    TableCase {
        source: "own, by hand: a stale guess",
        guess: 1,
        limit: 9,
        looks: &[
            (0, 0, None),
            (0, 1, Some(false)),
            (4, 1, None),
            (4, 2, Some(false)),
        ],
    },
    TableCase {
        source: "own, by hand: LIMIT in the window",
        guess: 0,
        limit: 1,
        looks: &[
            (0, 0, Some(true)),
            (1, 1, Some(false)),
            (4, 1, Some(true)),
            (4, 2, None),
        ],
    },
    TableCase {
        source: "own, by hand: the guess at LIMIT",
        guess: 1,
        limit: 1,
        looks: &[
            (0, 1, Some(false)),
            (1, 1, Some(false)),
            (1, 2, None),
            (4, 1, None),
        ],
    },
    TableCase {
        source: "own, by hand: the last number",
        guess: LAST,
        limit: LAST,
        looks: &[
            (0, LAST, Some(false)),
            (1, LAST, Some(false)),
            (1, LAST - 1, None),
            (4, LAST, None),
        ],
    },
];

#[test]
fn messages_open_at_their_numbers(rt: HostRuntime) {
    for case in &TABLES {
        assert_looks(&rt, rt.alloc(), case);
    }
}

fn assert_looks<R: Abort + Threads + Sync>(rt: &R, alloc: Global, case: &TableCase) {
    let pool = pool_of(rt);
    let spoilt = item(Message::Spoilt);
    let items = [
        item(Message::First),
        spoilt,
        spoilt,
        spoilt,
        item(Message::Second),
    ];
    let table = table_of(rt, alloc, case.guess, case.limit, &pool, &items);
    assert_same(rt, table.guess(), case.guess, "guess");
    for (i, n, verdict) in case.looks {
        assert!(rt; *i < 5);
        assert_at(rt, table.look(*i, *n), *verdict, case.source, (*i, *n));
    }
}

// Four texts of 20,000 zeros and a message: work for several threads.
#[test]
fn rows_are_filled_in_pieces(rt: HostRuntime) {
    let mut pool = [0u8; 20_149];
    pool[..149].copy_from_slice(&pool_of(&rt));
    let zeros = Item {
        aad: Span { start: 0, len: 0 },
        text: Span {
            start: 149,
            len: 20_000,
        },
    };
    let items = [zeros, zeros, zeros, zeros, item(Message::Second)];
    let table = table_of(&rt, rt.alloc(), 0, 9, &pool, &items);
    for i in 0..4usize {
        assert_at(&rt, table.look(i, 0), Some(false), "item", i);
    }
    assert_same(&rt, table.look(4, 1), Some(true), "a look at item 4");
}
