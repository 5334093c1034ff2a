//! The limits of a batch of capsules: of the lines of each kind, and of its bytes fields.

use crate::bad_cases::{FieldCase, LongCase};
use field_text::Reason;

// One line more of a kind than there may be, and as many as there may be with one of another kind
// behind them. All are own, made by hand from the grammar.
pub static COUNTS: [LongCase; 7] = [
    LongCase {
        what: "257 asks",
        before: b"hpkebatch 2\nrand 0000000000000000000000000000000000000000000000000000000000000000\n",
        part: b"ask 0 7 1 1 -\n",
        times: 257,
        after: b"",
        line: 259,
        reason: Reason::Count,
    },
    LongCase {
        what: "256 asks and an answer, before a bad line",
        before: b"hpkebatch 2\nrand 0000000000000000000000000000000000000000000000000000000000000000\n",
        part: b"ask 0 7 1 1 -\n",
        times: 256,
        after: b"answer 0 7 00 - -\nx\n",
        line: 260,
        reason: Reason::Word,
    },
    LongCase {
        what: "257 answers",
        before: b"hpkebatch 2\n",
        part: b"answer 0 7 00 - -\n",
        times: 257,
        after: b"",
        line: 258,
        reason: Reason::Count,
    },
    LongCase {
        what: "256 answers and a take, before a bad line",
        before: b"hpkebatch 2\n",
        part: b"answer 0 7 00 - -\n",
        times: 256,
        after: b"take 0 -\nx\n",
        line: 259,
        reason: Reason::Word,
    },
    LongCase {
        what: "257 takes",
        before: b"hpkebatch 2\n",
        part: b"take 0 -\n",
        times: 257,
        after: b"",
        line: 258,
        reason: Reason::Count,
    },
    LongCase {
        what: "256 takes and an ask, before a bad line",
        before: b"hpkebatch 2\nrand 0000000000000000000000000000000000000000000000000000000000000000\n",
        part: b"take 0 -\n",
        times: 256,
        after: b"ask 0 7 1 1 -\nx\n",
        line: 260,
        reason: Reason::Word,
    },
    LongCase {
        what: "65 keys",
        before: b"hpkebatch 2\n",
        part: b"peer -\n",
        times: 65,
        after: b"",
        line: 66,
        reason: Reason::Count,
    },
];

// All are own, from the format's table of fields.
pub static FIELDS: [FieldCase; 6] = [
    FieldCase {
        what: "HEX",
        before: b"hpkebatch 2\nsecret857 ",
        most: 65_535,
        after: b"\n",
        line: 2,
    },
    FieldCase {
        what: "TEXT of `ask`",
        before: b"hpkebatch 2\nrand 0000000000000000000000000000000000000000000000000000000000000000\nask 0 7 1 1 ",
        most: 1_048_576,
        after: b"\n",
        line: 3,
    },
    FieldCase {
        what: "REQ",
        before: b"hpkebatch 2\nanswer 0 7 ",
        most: 1_049_783,
        after: b" - -\n",
        line: 2,
    },
    FieldCase {
        what: "NONCE",
        before: b"hpkebatch 2\nanswer 0 7 @0 ",
        most: 65_535,
        after: b" -\n",
        line: 2,
    },
    FieldCase {
        what: "TEXT of `answer`",
        before: b"hpkebatch 2\nanswer 0 7 @0 - ",
        most: 1_048_576,
        after: b"\n",
        line: 2,
    },
    FieldCase {
        what: "RESP",
        before: b"hpkebatch 2\ntake 0 ",
        most: 1_048_624,
        after: b"\n",
        line: 2,
    },
];
