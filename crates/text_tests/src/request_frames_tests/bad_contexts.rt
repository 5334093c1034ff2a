//! Texts that are no batch because a line of their contexts is bad.

use crate::bad_cases::BadCase;
use request_frames::Reason;

// All are own, made by hand from the grammar of the batch text.
pub static BAD_CONTEXTS: [BadCase; 31] = [
    BadCase {
        what: "`send` without a seed",
        text: b"hpkebatch 1\nsend 1 1 0 base - - - 9\nend\n",
        line: 2,
        reason: Reason::Order,
    },
    BadCase {
        what: "nine fields of `send`",
        text: b"hpkebatch 1\nrand 0000000000000000000000000000000000000000000000000000000000000000\nsend 32 1 1 0 base - - - 9\nend\n",
        line: 3,
        reason: Reason::Fields,
    },
    BadCase {
        what: "KEY of 65536, before another MODE",
        text: b"hpkebatch 1\nrand 0000000000000000000000000000000000000000000000000000000000000000\nsend 1 1 65536 x - - - 9\nend\n",
        line: 3,
        reason: Reason::Range,
    },
    BadCase {
        what: "`recv` behind a lane",
        text: b"hpkebatch 1\nlane\nrecv 1 1 0 - base - - - 9\nend\n",
        line: 3,
        reason: Reason::Order,
    },
    BadCase {
        what: "eight fields of `recv`",
        text: b"hpkebatch 1\nrecv 1 1 0 base - - - 9\nend\n",
        line: 2,
        reason: Reason::Fields,
    },
    BadCase {
        what: "KEY of `recv` before ENC",
        text: b"hpkebatch 1\nrecv 1 1 00 x base - - - 9\nend\n",
        line: 2,
        reason: Reason::Number,
    },
    BadCase {
        what: "KEY of 65536 in `recv`",
        text: b"hpkebatch 1\nrecv 1 1 65536 - base - - - 9\nend\n",
        line: 2,
        reason: Reason::Range,
    },
    BadCase {
        what: "`@` without a number",
        text: b"hpkebatch 1\nrecv 1 1 0 @ base - - - 9\nend\n",
        line: 2,
        reason: Reason::Number,
    },
    BadCase {
        what: "`@` and a leading zero",
        text: b"hpkebatch 1\nrecv 1 1 0 @00 base - - - 9\nend\n",
        line: 2,
        reason: Reason::Number,
    },
    BadCase {
        what: "`@` and 65536",
        text: b"hpkebatch 1\nrecv 1 1 0 @65536 base - - - 9\nend\n",
        line: 2,
        reason: Reason::Range,
    },
    BadCase {
        what: "`@` behind a number",
        text: b"hpkebatch 1\nrecv 1 1 0 0@ base - - - 9\nend\n",
        line: 2,
        reason: Reason::Hex,
    },
    BadCase {
        what: "an empty ENC",
        text: b"hpkebatch 1\nrecv 1 1 0  base - - - 9\nend\n",
        line: 2,
        reason: Reason::Hex,
    },
    BadCase {
        what: "a context behind a lane",
        text: b"hpkebatch 1\nlane\nshare send 32 1 1 ab base - - - 9\nend\n",
        line: 3,
        reason: Reason::Order,
    },
    BadCase {
        what: "a context behind a lane, without its fields",
        text: b"hpkebatch 1\nlane\nshare\nend\n",
        line: 3,
        reason: Reason::Order,
    },
    BadCase {
        what: "nine fields of `share`",
        text: b"hpkebatch 1\nshare send 32 1 1 ab base - - 9\nend\n",
        line: 2,
        reason: Reason::Fields,
    },
    BadCase {
        what: "another ROLE",
        text: b"hpkebatch 1\nshare sender 32 1 1 ab base - - - 9\nend\n",
        line: 2,
        reason: Reason::Word,
    },
    BadCase {
        what: "KEM of 65536",
        text: b"hpkebatch 1\nshare send 65536 1 1 ab base - - - 9\nend\n",
        line: 2,
        reason: Reason::Range,
    },
    BadCase {
        what: "KDF of 0",
        text: b"hpkebatch 1\nshare send 32 0 1 ab base - - - 9\nend\n",
        line: 2,
        reason: Reason::Range,
    },
    BadCase {
        what: "KDF of 4",
        text: b"hpkebatch 1\nshare send 32 4 1 ab base - - - 9\nend\n",
        line: 2,
        reason: Reason::Range,
    },
    BadCase {
        what: "KDF that isn't a number",
        text: b"hpkebatch 1\nshare send 32 x 1 ab base - - - 9\nend\n",
        line: 2,
        reason: Reason::Number,
    },
    BadCase {
        what: "AEAD of 3, ChaCha20Poly1305",
        text: b"hpkebatch 1\nshare send 32 1 3 ab base - - - 9\nend\n",
        line: 2,
        reason: Reason::Range,
    },
    BadCase {
        what: "AEAD of 65536",
        text: b"hpkebatch 1\nshare send 32 1 65536 ab base - - - 9\nend\n",
        line: 2,
        reason: Reason::Range,
    },
    BadCase {
        what: "AEAD of 0",
        text: b"hpkebatch 1\nshare send 32 1 0 ab base - - - 9\nend\n",
        line: 2,
        reason: Reason::Range,
    },
    BadCase {
        what: "AEAD with a leading zero",
        text: b"hpkebatch 1\nshare send 32 1 01 ab base - - - 9\nend\n",
        line: 2,
        reason: Reason::Number,
    },
    BadCase {
        what: "another MODE",
        text: b"hpkebatch 1\nshare send 32 1 1 ab auth - - - 9\nend\n",
        line: 2,
        reason: Reason::Word,
    },
    BadCase {
        what: "three hex digits of INFO",
        text: b"hpkebatch 1\nshare send 32 1 1 ab base 000 - - 9\nend\n",
        line: 2,
        reason: Reason::Hex,
    },
    BadCase {
        what: "a capital digit in PSK",
        text: b"hpkebatch 1\nshare send 32 1 1 ab psk - 0A 00 9\nend\n",
        line: 2,
        reason: Reason::Hex,
    },
    BadCase {
        what: "an empty PSKID",
        text: b"hpkebatch 1\nshare send 32 1 1 ab psk - 00  9\nend\n",
        line: 2,
        reason: Reason::Hex,
    },
    BadCase {
        what: "LIMIT of 0",
        text: b"hpkebatch 1\nshare send 32 1 1 ab base - - - 0\nend\n",
        line: 2,
        reason: Reason::Range,
    },
    BadCase {
        what: "LIMIT of 2^64",
        text: b"hpkebatch 1\nshare send 32 1 1 ab base - - - 18446744073709551616\nend\n",
        line: 2,
        reason: Reason::Range,
    },
    BadCase {
        what: "LIMIT with a sign",
        text: b"hpkebatch 1\nshare send 32 1 1 ab base - - - +9\nend\n",
        line: 2,
        reason: Reason::Number,
    },
];
