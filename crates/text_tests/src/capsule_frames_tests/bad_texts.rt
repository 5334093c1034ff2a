//! Texts that are no batch of capsules, each with its first bad line and reason.

use crate::bad_cases::BadCase;
use field_text::Reason;

// All are own, made by hand from the grammar.
pub static BAD: [BadCase; 32] = [
    BadCase {
        what: "version 1",
        text: b"hpkebatch 1\nend\n",
        line: 1,
        reason: Reason::Header,
    },
    BadCase {
        what: "no `end`",
        text: b"hpkebatch 2\ntake 0 00\n",
        line: 3,
        reason: Reason::NoEnd,
    },
    BadCase {
        what: "a take without its line feed",
        text: b"hpkebatch 2\ntake 0 00",
        line: 2,
        reason: Reason::NoEnd,
    },
    BadCase {
        what: "an `end` without its line feed",
        text: b"hpkebatch 2\nend",
        line: 2,
        reason: Reason::NoEnd,
    },
    BadCase {
        what: "a byte behind `end`",
        text: b"hpkebatch 2\nend\nx",
        line: 3,
        reason: Reason::Trailing,
    },
    BadCase {
        what: "a take behind `end`",
        text: b"hpkebatch 2\nend\ntake 0 00\n",
        line: 3,
        reason: Reason::Trailing,
    },
    BadCase {
        what: "a context line",
        text: b"hpkebatch 2\nshare\nend\n",
        line: 2,
        reason: Reason::Word,
    },
    BadCase {
        what: "a lane",
        text: b"hpkebatch 2\nlane\nend\n",
        line: 2,
        reason: Reason::Word,
    },
    BadCase {
        what: "`rand` behind a key",
        text: b"hpkebatch 2\npeer 00\nrand 0000000000000000000000000000000000000000000000000000000000000000\nend\n",
        line: 3,
        reason: Reason::Order,
    },
    BadCase {
        what: "a second `rand`",
        text: b"hpkebatch 2\nrand 0000000000000000000000000000000000000000000000000000000000000000\nrand 0000000000000000000000000000000000000000000000000000000000000000\nend\n",
        line: 3,
        reason: Reason::Order,
    },
    BadCase {
        what: "`rand` behind a capsule line",
        text: b"hpkebatch 2\ntake 0 00\nrand 0000000000000000000000000000000000000000000000000000000000000000\nend\n",
        line: 3,
        reason: Reason::Order,
    },
    BadCase {
        what: "an ask without a seed",
        text: b"hpkebatch 2\nask 0 7 1 1 00\nend\n",
        line: 2,
        reason: Reason::Order,
    },
    BadCase {
        what: "`keygen` without a seed",
        text: b"hpkebatch 2\nkeygen\nend\n",
        line: 2,
        reason: Reason::Order,
    },
    BadCase {
        what: "a key behind a capsule line",
        text: b"hpkebatch 2\ntake 0 00\npeer 00\nend\n",
        line: 3,
        reason: Reason::Order,
    },
    BadCase {
        what: "an ask with 4 fields",
        text: b"hpkebatch 2\nrand 0000000000000000000000000000000000000000000000000000000000000000\nask 0 7 1 1\nend\n",
        line: 3,
        reason: Reason::Fields,
    },
    BadCase {
        what: "KEY of 65536",
        text: b"hpkebatch 2\nrand 0000000000000000000000000000000000000000000000000000000000000000\nask 65536 7 1 1 -\nend\n",
        line: 3,
        reason: Reason::Range,
    },
    BadCase {
        what: "ID of 256",
        text: b"hpkebatch 2\nrand 0000000000000000000000000000000000000000000000000000000000000000\nask 0 256 1 1 -\nend\n",
        line: 3,
        reason: Reason::Range,
    },
    BadCase {
        what: "KDF of 4",
        text: b"hpkebatch 2\nrand 0000000000000000000000000000000000000000000000000000000000000000\nask 0 7 4 1 -\nend\n",
        line: 3,
        reason: Reason::Range,
    },
    BadCase {
        what: "KDF that isn't a number",
        text: b"hpkebatch 2\nrand 0000000000000000000000000000000000000000000000000000000000000000\nask 0 7 x 1 -\nend\n",
        line: 3,
        reason: Reason::Number,
    },
    BadCase {
        what: "an export-only suite",
        text: b"hpkebatch 2\nrand 0000000000000000000000000000000000000000000000000000000000000000\nask 0 7 1 65535 -\nend\n",
        line: 3,
        reason: Reason::Range,
    },
    BadCase {
        what: "AEAD of 0",
        text: b"hpkebatch 2\nrand 0000000000000000000000000000000000000000000000000000000000000000\nask 0 7 1 0 -\nend\n",
        line: 3,
        reason: Reason::Range,
    },
    BadCase {
        what: "AEAD with a leading zero",
        text: b"hpkebatch 2\nrand 0000000000000000000000000000000000000000000000000000000000000000\nask 0 7 1 01 -\nend\n",
        line: 3,
        reason: Reason::Number,
    },
    BadCase {
        what: "a text of half a byte",
        text: b"hpkebatch 2\nrand 0000000000000000000000000000000000000000000000000000000000000000\nask 0 7 1 1 0\nend\n",
        line: 3,
        reason: Reason::Hex,
    },
    BadCase {
        what: "an answer with 4 fields",
        text: b"hpkebatch 2\nanswer 0 7 @0 -\nend\n",
        line: 2,
        reason: Reason::Fields,
    },
    BadCase {
        what: "a request that isn't bytes",
        text: b"hpkebatch 2\nanswer 0 7 x - -\nend\n",
        line: 2,
        reason: Reason::Hex,
    },
    BadCase {
        what: "a request by no number",
        text: b"hpkebatch 2\nanswer 0 7 @ - -\nend\n",
        line: 2,
        reason: Reason::Number,
    },
    BadCase {
        what: "a request by number 65536",
        text: b"hpkebatch 2\nanswer 0 7 @65536 - -\nend\n",
        line: 2,
        reason: Reason::Range,
    },
    BadCase {
        what: "capital hex digits of a nonce",
        text: b"hpkebatch 2\nanswer 0 7 @0 AA -\nend\n",
        line: 2,
        reason: Reason::Hex,
    },
    BadCase {
        what: "a take with 3 fields",
        text: b"hpkebatch 2\ntake 0 00 -\nend\n",
        line: 2,
        reason: Reason::Fields,
    },
    BadCase {
        what: "a take of no number",
        text: b"hpkebatch 2\ntake @0 00\nend\n",
        line: 2,
        reason: Reason::Number,
    },
    BadCase {
        what: "ASK of 65536",
        text: b"hpkebatch 2\ntake 65536 00\nend\n",
        line: 2,
        reason: Reason::Range,
    },
    BadCase {
        what: "three hex digits of a response",
        text: b"hpkebatch 2\ntake 0 000\nend\n",
        line: 2,
        reason: Reason::Hex,
    },
];
