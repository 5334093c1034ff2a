//! Texts that are no batch, each with its first bad line and reason.

use crate::bad_cases::BadCase;
use request_frames::Reason;

// All are own, made by hand from the grammar of the batch text.
pub static BAD: [BadCase; 25] = [
    BadCase {
        what: "no byte",
        text: b"",
        line: 1,
        reason: Reason::Header,
    },
    BadCase {
        what: "a header without its line feed",
        text: b"hpkebatch 1",
        line: 1,
        reason: Reason::Header,
    },
    BadCase {
        what: "a third version",
        text: b"hpkebatch 3\nend\n",
        line: 1,
        reason: Reason::Header,
    },
    BadCase {
        what: "a carriage return behind the header",
        text: b"hpkebatch 1\r\nend\n",
        line: 1,
        reason: Reason::Header,
    },
    BadCase {
        what: "a header alone",
        text: b"hpkebatch 1\n",
        line: 2,
        reason: Reason::NoEnd,
    },
    BadCase {
        what: "a second header",
        text: b"hpkebatch 1\nhpkebatch 1\nend\n",
        line: 2,
        reason: Reason::Word,
    },
    BadCase {
        what: "an `end` without its line feed",
        text: b"hpkebatch 1\nend",
        line: 2,
        reason: Reason::NoEnd,
    },
    BadCase {
        what: "a word that is no line's, without its line feed",
        text: b"hpkebatch 1\nende",
        line: 2,
        reason: Reason::NoEnd,
    },
    BadCase {
        what: "no `end`",
        text: b"hpkebatch 1\nlane\n",
        line: 3,
        reason: Reason::NoEnd,
    },
    BadCase {
        what: "a byte behind `end`",
        text: b"hpkebatch 1\nend\nx",
        line: 3,
        reason: Reason::Trailing,
    },
    BadCase {
        what: "a line feed behind `end`",
        text: b"hpkebatch 1\nend\n\n",
        line: 3,
        reason: Reason::Trailing,
    },
    BadCase {
        what: "a second `end`",
        text: b"hpkebatch 1\nend\nend\n",
        line: 3,
        reason: Reason::Trailing,
    },
    BadCase {
        what: "a space behind `end`",
        text: b"hpkebatch 1\nend \n",
        line: 2,
        reason: Reason::Fields,
    },
    BadCase {
        what: "a carriage return behind `end`",
        text: b"hpkebatch 1\nend\r\n",
        line: 2,
        reason: Reason::Word,
    },
    BadCase {
        what: "an empty line",
        text: b"hpkebatch 1\n\nend\n",
        line: 2,
        reason: Reason::Word,
    },
    BadCase {
        what: "a space before a word",
        text: b"hpkebatch 1\n end\n",
        line: 2,
        reason: Reason::Word,
    },
    BadCase {
        what: "a capital letter in a word",
        text: b"hpkebatch 1\nLane\nend\n",
        line: 2,
        reason: Reason::Word,
    },
    BadCase {
        what: "a byte that is no text",
        text: b"hpkebatch 1\nlane\n\xff\n",
        line: 3,
        reason: Reason::Word,
    },
    BadCase {
        what: "a call before a lane",
        text: b"hpkebatch 1\nexport 0 - 32\nend\n",
        line: 2,
        reason: Reason::Order,
    },
    BadCase {
        what: "a call before a lane, without its fields",
        text: b"hpkebatch 1\nexport\nend\n",
        line: 2,
        reason: Reason::Order,
    },
    BadCase {
        what: "a field of `lane`",
        text: b"hpkebatch 1\nlane 0\nend\n",
        line: 2,
        reason: Reason::Fields,
    },
    BadCase {
        what: "a field of a second `lane`",
        text: b"hpkebatch 1\nlane\nlane 0\nend\n",
        line: 3,
        reason: Reason::Fields,
    },
    BadCase {
        what: "a good line before a bad one",
        text: b"hpkebatch 1\nshare send 32 1 1 ab base - - - 9\nlane\nexport 0 - x\n",
        line: 4,
        reason: Reason::Number,
    },
    BadCase {
        what: "a line that adds a context",
        text: b"hpkebatch 2\nlane\nadd send 32 1 1 ab base - - - 9\nend\n",
        line: 3,
        reason: Reason::Word,
    },
    BadCase {
        what: "a line that retires a context",
        text: b"hpkebatch 2\nlane\nretire +0\nend\n",
        line: 3,
        reason: Reason::Word,
    },
];
