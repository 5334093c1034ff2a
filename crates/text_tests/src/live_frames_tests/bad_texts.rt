//! Texts that are no batch whose lanes add and retire contexts, each with its first bad line and
//! reason.

use crate::bad_cases::{BadCase, LongCase};
use field_text::Reason;

// What follows the first line `hpkebatch 2`. All are own, made by hand from the grammar.
pub static BAD: [BadCase; 26] = [
    BadCase {
        what: "add before a lane",
        text: b"add send 32 1 1 5e base - - - 9\nend\n",
        line: 2,
        reason: Reason::Order,
    },
    BadCase {
        what: "retire before a lane",
        text: b"retire +0\nend\n",
        line: 2,
        reason: Reason::Order,
    },
    BadCase {
        what: "retire before a lane, without a field",
        text: b"retire\nend\n",
        line: 2,
        reason: Reason::Order,
    },
    BadCase {
        what: "a context line in a lane",
        text: b"lane\nshare\nend\n",
        line: 3,
        reason: Reason::Order,
    },
    BadCase {
        what: "a key line in a lane",
        text: b"lane\npeer -\nend\n",
        line: 3,
        reason: Reason::Order,
    },
    BadCase {
        what: "retire with no space",
        text: b"lane\nretire+0\nend\n",
        line: 3,
        reason: Reason::Word,
    },
    BadCase {
        what: "remove",
        text: b"lane\nremove +0\nend\n",
        line: 3,
        reason: Reason::Word,
    },
    BadCase {
        what: "retire without a field",
        text: b"lane\nretire\nend\n",
        line: 3,
        reason: Reason::Fields,
    },
    BadCase {
        what: "retire with two fields",
        text: b"lane\nretire +0 +1\nend\n",
        line: 3,
        reason: Reason::Fields,
    },
    BadCase {
        what: "retire by no name",
        text: b"lane\nretire 0\nend\n",
        line: 3,
        reason: Reason::Number,
    },
    BadCase {
        what: "retire by a name of no digits",
        text: b"lane\nretire +\nend\n",
        line: 3,
        reason: Reason::Number,
    },
    BadCase {
        what: "retire by a name with a leading zero",
        text: b"lane\nretire +00\nend\n",
        line: 3,
        reason: Reason::Number,
    },
    BadCase {
        what: "retire by the name 65,536",
        text: b"lane\nretire +65536\nend\n",
        line: 3,
        reason: Reason::Range,
    },
    BadCase {
        what: "add with nine fields",
        text: b"lane\nadd send 32 1 1 5e base - - -\nend\n",
        line: 3,
        reason: Reason::Fields,
    },
    BadCase {
        what: "add in a third role",
        text: b"lane\nadd both 32 1 1 5e base - - - 9\nend\n",
        line: 3,
        reason: Reason::Word,
    },
    BadCase {
        what: "add with KEM 65,536",
        text: b"lane\nadd send 65536 1 1 5e base - - - 9\nend\n",
        line: 3,
        reason: Reason::Range,
    },
    BadCase {
        what: "add with a secret of one digit",
        text: b"lane\nadd send 32 1 1 5 base - - - 9\nend\n",
        line: 3,
        reason: Reason::Hex,
    },
    BadCase {
        what: "add with LIMIT 0",
        text: b"lane\nadd send 32 1 1 5e base - - - 0\nend\n",
        line: 3,
        reason: Reason::Range,
    },
    BadCase {
        what: "a seal on the name 65,536",
        text: b"lane\nseal +65536 - -\nend\n",
        line: 3,
        reason: Reason::Range,
    },
    BadCase {
        what: "a seal on number 65,536",
        text: b"lane\nseal 65536 - -\nend\n",
        line: 3,
        reason: Reason::Range,
    },
    BadCase {
        what: "an export on two signs",
        text: b"lane\nexport ++0 - 1\nend\n",
        line: 3,
        reason: Reason::Number,
    },
    BadCase {
        what: "an opening on a sign alone",
        text: b"lane\nunsealall + - 00\nend\n",
        line: 3,
        reason: Reason::Number,
    },
    BadCase {
        what: "an export of +1 bytes",
        text: b"lane\nexport 0 - +1\nend\n",
        line: 3,
        reason: Reason::Number,
    },
    BadCase {
        what: "a KEM with a sign",
        text: b"share send +32 1 1 5e base - - - 9\nend\n",
        line: 2,
        reason: Reason::Number,
    },
    BadCase {
        what: "retire that is unfinished",
        text: b"lane\nretire +0",
        line: 3,
        reason: Reason::NoEnd,
    },
    BadCase {
        what: "a line behind the end",
        text: b"lane\nretire +0\nend\nend\n",
        line: 5,
        reason: Reason::Trailing,
    },
];

// Long texts, from their first line on. All are own, as above.
pub static LONG: [LongCase; 3] = [
    LongCase {
        what: "257 contexts, 256 of which are added",
        before: b"hpkebatch 2\nshare send 32 1 1 5e base - - - 9\nlane\n",
        part: b"add send 32 1 1 5e base - - - 9\n",
        times: 256,
        after: b"",
        line: 259,
        reason: Reason::Count,
    },
    LongCase {
        what: "256 contexts, and no end",
        before: b"hpkebatch 2\nshare send 32 1 1 5e base - - - 9\nlane\n",
        part: b"add send 32 1 1 5e base - - - 9\n",
        times: 255,
        after: b"",
        line: 259,
        reason: Reason::NoEnd,
    },
    LongCase {
        what: "65,537 items",
        before: b"hpkebatch 2\nlane\n",
        part: b"retire +0\n",
        times: 65_537,
        after: b"",
        line: 65_539,
        reason: Reason::Count,
    },
];
