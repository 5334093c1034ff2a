//! Texts that are no batch because a line of their seed or their keys is bad.

use crate::bad_cases::BadCase;
use request_frames::Reason;

// All are own, made by hand from the grammar of the batch text.
pub static BAD_SET_UPS: [BadCase; 24] = [
    BadCase {
        what: "a word of version 2 in version 1",
        text: b"hpkebatch 1\nrand 0000000000000000000000000000000000000000000000000000000000000000\nkeygen857\nend\n",
        line: 3,
        reason: Reason::Word,
    },
    BadCase {
        what: "`secret857` in version 1",
        text: b"hpkebatch 1\nsecret857 00\nend\n",
        line: 2,
        reason: Reason::Word,
    },
    BadCase {
        what: "`peer857` in version 1",
        text: b"hpkebatch 1\npeer857 00\nend\n",
        line: 2,
        reason: Reason::Word,
    },
    BadCase {
        what: "a word of no version",
        text: b"hpkebatch 2\nkeygen761\nend\n",
        line: 2,
        reason: Reason::Word,
    },
    BadCase {
        what: "`rand` behind a key",
        text: b"hpkebatch 1\npeer -\nrand 0000000000000000000000000000000000000000000000000000000000000000\nend\n",
        line: 3,
        reason: Reason::Order,
    },
    BadCase {
        what: "`rand` behind a context",
        text: b"hpkebatch 1\nshare send 32 1 1 ab base - - - 9\nrand 0000000000000000000000000000000000000000000000000000000000000000\nend\n",
        line: 3,
        reason: Reason::Order,
    },
    BadCase {
        what: "`rand` behind a lane",
        text: b"hpkebatch 1\nlane\nrand 0000000000000000000000000000000000000000000000000000000000000000\nend\n",
        line: 3,
        reason: Reason::Order,
    },
    BadCase {
        what: "a second `rand`, without its field",
        text: b"hpkebatch 1\nrand 0000000000000000000000000000000000000000000000000000000000000000\nrand\nend\n",
        line: 3,
        reason: Reason::Order,
    },
    BadCase {
        what: "`rand` without its field",
        text: b"hpkebatch 1\nrand\nend\n",
        line: 2,
        reason: Reason::Fields,
    },
    BadCase {
        what: "a seed of no bytes",
        text: b"hpkebatch 1\nrand -\nend\n",
        line: 2,
        reason: Reason::Size,
    },
    BadCase {
        what: "a seed of 31 bytes",
        text: b"hpkebatch 1\nrand 00000000000000000000000000000000000000000000000000000000000000\nend\n",
        line: 2,
        reason: Reason::Size,
    },
    BadCase {
        what: "a seed of 33 bytes",
        text: b"hpkebatch 1\nrand 000000000000000000000000000000000000000000000000000000000000000000\nend\n",
        line: 2,
        reason: Reason::Size,
    },
    BadCase {
        what: "a seed of 65 digits",
        text: b"hpkebatch 1\nrand 00000000000000000000000000000000000000000000000000000000000000000\nend\n",
        line: 2,
        reason: Reason::Hex,
    },
    BadCase {
        what: "a seed of 33 bytes with a capital digit",
        text: b"hpkebatch 1\nrand 00000000000000000000000000000000000000000000000000000000000000000A\nend\n",
        line: 2,
        reason: Reason::Hex,
    },
    BadCase {
        what: "`keygen` without a seed",
        text: b"hpkebatch 1\nkeygen\nend\n",
        line: 2,
        reason: Reason::Order,
    },
    BadCase {
        what: "`keygen` without a seed and with a field",
        text: b"hpkebatch 1\nkeygen 0\nend\n",
        line: 2,
        reason: Reason::Order,
    },
    BadCase {
        what: "`keygen857` without a seed",
        text: b"hpkebatch 2\nkeygen857\nend\n",
        line: 2,
        reason: Reason::Order,
    },
    BadCase {
        what: "`keygen` with a field",
        text: b"hpkebatch 1\nrand 0000000000000000000000000000000000000000000000000000000000000000\nkeygen 0\nend\n",
        line: 3,
        reason: Reason::Fields,
    },
    BadCase {
        what: "`keygen857` with a field",
        text: b"hpkebatch 2\nrand 0000000000000000000000000000000000000000000000000000000000000000\nkeygen857 0\nend\n",
        line: 3,
        reason: Reason::Fields,
    },
    BadCase {
        what: "`secret` without its field",
        text: b"hpkebatch 1\nsecret\nend\n",
        line: 2,
        reason: Reason::Fields,
    },
    BadCase {
        what: "`peer` with two fields",
        text: b"hpkebatch 1\npeer - -\nend\n",
        line: 2,
        reason: Reason::Fields,
    },
    BadCase {
        what: "three hex digits of a key",
        text: b"hpkebatch 2\npeer857 000\nend\n",
        line: 2,
        reason: Reason::Hex,
    },
    BadCase {
        what: "a key behind a context",
        text: b"hpkebatch 1\nshare send 32 1 1 ab base - - - 9\npeer -\nend\n",
        line: 3,
        reason: Reason::Order,
    },
    BadCase {
        what: "a key behind a lane",
        text: b"hpkebatch 1\nlane\nsecret -\nend\n",
        line: 3,
        reason: Reason::Order,
    },
];
