//! Long texts that are no batch, each with its first bad line and reason.

use crate::bad_cases::LongCase;
use request_frames::Reason;

// 64 hex digits: 32 bytes.
const DIGITS: &'static [u8] = b"000102030405060708090a0b0c0d0e0f101112131415161718191a1b1c1d1e1f";

// All are own, made by hand from the grammar of the batch text.
pub static LONG: [LongCase; 11] = [
    LongCase {
        what: "65 keys",
        before: b"hpkebatch 1\n",
        part: b"peer -\n",
        times: 65,
        after: b"",
        line: 66,
        reason: Reason::Count,
    },
    LongCase {
        what: "17 lanes",
        before: b"hpkebatch 1\n",
        part: b"lane\n",
        times: 17,
        after: b"",
        line: 18,
        reason: Reason::Count,
    },
    LongCase {
        what: "a field of a 17th lane",
        before: b"hpkebatch 1\n",
        part: b"lane\n",
        times: 16,
        after: b"lane 0\n",
        line: 18,
        reason: Reason::Fields,
    },
    LongCase {
        what: "an opening of 4,097 messages",
        before: b"hpkebatch 1\nlane\nunsealall 0",
        part: b" - -",
        times: 4_097,
        after: b"\n",
        line: 3,
        reason: Reason::Count,
    },
    LongCase {
        what: "an opening of 4,097 messages, whose last CT isn't bytes",
        before: b"hpkebatch 1\nlane\nunsealall 0",
        part: b" - -",
        times: 4_096,
        after: b" - x\n",
        line: 3,
        reason: Reason::Hex,
    },
    LongCase {
        what: "an opening of 4,096 messages, before a bad line",
        before: b"hpkebatch 1\nlane\nunsealall 0",
        part: b" - -",
        times: 4_096,
        after: b"\nx\n",
        line: 4,
        reason: Reason::Word,
    },
    LongCase {
        what: "257 contexts",
        before: b"hpkebatch 1\n",
        part: b"share send 32 1 1 ab base - - - 9\n",
        times: 257,
        after: b"",
        line: 258,
        reason: Reason::Count,
    },
    LongCase {
        what: "exports of 16,777,217 bytes",
        before: b"hpkebatch 1\nlane\nexport 0 - 256\n",
        part: b"export 0 - 65535\n",
        times: 256,
        after: b"export 0 - 1\n",
        line: 260,
        reason: Reason::Count,
    },
    LongCase {
        what: "exports of 16,777,216 bytes, before a bad line",
        before: b"hpkebatch 1\nlane\nexport 0 - 256\n",
        part: b"export 0 - 65535\n",
        times: 256,
        after: b"x\n",
        line: 260,
        reason: Reason::Word,
    },
    LongCase {
        what: "65,537 items, in two lanes",
        before: b"hpkebatch 1\nlane\nunsealall 0 - - - -\nexport 0 - 0\nlane\n",
        part: b"seal 0 - -\n",
        times: 65_534,
        after: b"",
        line: 65_539,
        reason: Reason::Count,
    },
    LongCase {
        what: "an AAD of 65,536 bytes, before a PT that isn't bytes",
        before: b"hpkebatch 1\nlane\nseal 0 ",
        part: DIGITS,
        times: 2_048,
        after: b" x\n",
        line: 3,
        reason: Reason::Size,
    },
];
