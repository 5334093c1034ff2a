//! Batches with keys, inputs that are no batch, and the other commands, with what they are answered. The
//! replies come from the formats' tables and from tools/reference. A function gives each table, as in
//! `runs`.

use batch_runner::Outcome;
use request_frames::Reason;
use result_lines::Verdict;

// A batch with keys. Its reply has so many bytes and ends with the lanes and the journals; the bytes of
// keys and encapsulations before them are compared in lattice_tests and context_tests; here only that each
// multiplier gives the same.
pub struct Exchange {
    pub source: &'static str,
    pub input: &'static str,
    pub size: usize,
    pub lanes: &'static str,
}

static EXCHANGES: [Exchange; 4] = [
    Exchange {
        source: "tools/reference: a sender",
        input: "hpkebatch 1\nrand 0000000000000000000000000000000000000000000000000000000000000000\nkeygen\nsend 1 2 0 base 4f6465206f6e2061204772656369616e2055726e - - 9\nlane\nseal 0 436f756e742d30 4265617574792069732074727574682c20747275746820626561757479\nend\n",
        size: 8095,
        lanes: "lane 0\nsealed 0 0f24e336aa7687f0f17a45eadb5793e198b138d877fc82aa54ff59c307027f5ef1a5ad87837ac49feb076ace72\njournal 0\n0 0 0\nend\n",
    },
    Exchange {
        source: "tools/reference: both ends",
        input: "hpkebatch 1\nrand 0000000000000000000000000000000000000000000000000000000000000000\nkeygen\nsend 1 2 0 base 4f6465206f6e2061204772656369616e2055726e - - 9\nrecv 1 2 0 @0 base 4f6465206f6e2061204772656369616e2055726e - - 9\nlane\nunseal 1 436f756e742d30 0f24e336aa7687f0f17a45eadb5793e198b138d877fc82aa54ff59c307027f5ef1a5ad87837ac49feb076ace72\nend\n",
        size: 8093,
        lanes: "lane 0\nopened 0 4265617574792069732074727574682c20747275746820626561757479\njournal 0\njournal 1\n0 0 0\nend\n",
    },
    Exchange {
        source: "tools/reference: sntrup857, both ends",
        input: "hpkebatch 2\nrand 0000000000000000000000000000000000000000000000000000000000000000\nkeygen857\nsend 1 1 0 base - - - 9\nrecv 1 1 0 @0 base - - - 9\nlane\nseal 0 - 00\nunseal 1 - bee9ef756b4c9ebdaebe173683ab11a768\nend\n",
        size: 9181,
        lanes: "lane 0\nsealed 0 bee9ef756b4c9ebdaebe173683ab11a768\nopened 0 00\njournal 0\n0 0 0 0\njournal 1\n0 1 0 1\nend\n",
    },
    Exchange {
        source: "tools/reference: an encapsulation for the other set",
        input: "hpkebatch 2\nrand 0000000000000000000000000000000000000000000000000000000000000000\nkeygen\nkeygen857\nsend 1 1 0 base - - - 9\nrecv 1 1 1 @0 base - - - 9\nlane\nseal 1 - -\nend\n",
        size: 14703,
        lanes: "lane 0\nrefused nocontext\njournal 0\njournal 1\nend\n",
    },
];

pub fn exchanges() -> &'static [Exchange; 4] {
    &EXCHANGES
}

// An input that is no batch. All are own, by hand from the grammar of the batch text.
pub struct BadRun {
    pub what: &'static str,
    pub input: &'static str,
    pub line: u32,
    pub reason: Reason,
    pub reply: &'static str,
}

static BAD: [BadRun; 15] = [
    BadRun {
        what: "no byte",
        input: "",
        line: 1,
        reason: Reason::Header,
        reply: "bad 1 header\n",
    },
    BadRun {
        what: "no line `end`",
        input: "hpkebatch 1\n",
        line: 2,
        reason: Reason::NoEnd,
        reply: "bad 2 noend\n",
    },
    BadRun {
        what: "a byte behind `end`",
        input: "hpkebatch 1\nend\nx",
        line: 3,
        reason: Reason::Trailing,
        reply: "bad 3 trailing\n",
    },
    BadRun {
        what: "a word of version 2",
        input: "hpkebatch 1\nkeygen857\nend\n",
        line: 2,
        reason: Reason::Word,
        reply: "bad 2 word\n",
    },
    BadRun {
        what: "a key to be made without a seed",
        input: "hpkebatch 1\nkeygen\nend\n",
        line: 2,
        reason: Reason::Order,
        reply: "bad 2 order\n",
    },
    BadRun {
        what: "a third version",
        input: "hpkebatch 3\nend\n",
        line: 1,
        reason: Reason::Header,
        reply: "bad 1 header\n",
    },
    BadRun {
        what: "a missing field",
        input: "hpkebatch 1\nlane\nseal 0 -\n",
        line: 3,
        reason: Reason::Fields,
        reply: "bad 3 fields\n",
    },
    BadRun {
        what: "an empty field",
        input: "hpkebatch 1\nlane\nseal 0 - \n",
        line: 3,
        reason: Reason::Hex,
        reply: "bad 3 hex\n",
    },
    BadRun {
        what: "a leading zero",
        input: "hpkebatch 1\nlane\nseal 00 - -\n",
        line: 3,
        reason: Reason::Number,
        reply: "bad 3 number\n",
    },
    BadRun {
        what: "capitals",
        input: "hpkebatch 1\nlane\nseal 0 - AB\n",
        line: 3,
        reason: Reason::Hex,
        reply: "bad 3 hex\n",
    },
    BadRun {
        what: "a LEN above its limit",
        input: "hpkebatch 1\nlane\nexport 0 - 65536\n",
        line: 3,
        reason: Reason::Range,
        reply: "bad 3 range\n",
    },
    BadRun {
        what: "a word in capitals",
        input: "hpkebatch 1\nlane\nSeal 0 - -\n",
        line: 3,
        reason: Reason::Word,
        reply: "bad 3 word\n",
    },
    BadRun {
        what: "LIMIT one above the greatest",
        input: "hpkebatch 1\nshare send 32 1 1 fe0e18c9f024ce43799ae393c7e8fe8fce9d218875e8227b0187c04e7d2ea1fc base 4f6465206f6e2061204772656369616e2055726e - - 18446744073709551616\nend\n",
        line: 2,
        reason: Reason::Range,
        reply: "bad 2 range\n",
    },
    BadRun {
        what: "LIMIT 0",
        input: "hpkebatch 1\nshare send 32 1 1 fe0e18c9f024ce43799ae393c7e8fe8fce9d218875e8227b0187c04e7d2ea1fc base 4f6465206f6e2061204772656369616e2055726e - - 0\nend\n",
        line: 2,
        reason: Reason::Range,
        reply: "bad 2 range\n",
    },
    BadRun {
        what: "a 17th lane",
        input: "hpkebatch 1\nlane\nlane\nlane\nlane\nlane\nlane\nlane\nlane\nlane\nlane\nlane\nlane\nlane\nlane\nlane\nlane\nlane\nend\n",
        line: 18,
        reason: Reason::Count,
        reply: "bad 18 count\n",
    },
];

pub fn bad_runs() -> &'static [BadRun; 15] {
    &BAD
}

// Another command, its input, and the text that it writes.
pub struct Other {
    pub source: &'static str,
    pub words: &'static [&'static str],
    pub input: &'static str,
    pub outcome: Outcome,
    pub text: &'static str,
}

static OTHERS: [Other; 15] = [
    Other {
        source: "tools/reference/demo.py; one message",
        words: &["demo", "0", "1", "1"],
        input: "",
        outcome: Outcome::Done,
        text: "messages 1 opened 1 refused 0\nsha256 e2949e0ada9610f5a9a3f86ed8b2874de13668035dbe1b48d2f75e748c416ad0\n",
    },
    Other {
        source: "tools/reference/demo.py; lanes that meet, and two lines that open",
        words: &["demo", "7", "257", "16"],
        input: "hpkebatch 1\n",
        outcome: Outcome::Done,
        text: "messages 257 opened 257 refused 0\nsha256 13e73f7dbcd4e67bfcf45400f9d91c90f2c14721cdef0328ff2e95094e3a5cab\n",
    },
    Other {
        source: "tools/reference/demo.py; eight lines that open",
        words: &["demo", "7", "2000", "8"],
        input: "",
        outcome: Outcome::Done,
        text: "messages 2000 opened 2000 refused 0\nsha256 e097de4b275273e01e5b4e6f66c65fc29616c955834d5f4e3dc2c9334b500cb1\n",
    },
    Other {
        source: "RFC 9180, A.1.1.1; the batch and its reply",
        words: &["check"],
        input: "hpkebatch 1\nshare send 32 1 1 fe0e18c9f024ce43799ae393c7e8fe8fce9d218875e8227b0187c04e7d2ea1fc base 4f6465206f6e2061204772656369616e2055726e - - 2\nlane\nseal 0 436f756e742d30 4265617574792069732074727574682c20747275746820626561757479\nseal 0 436f756e742d31 4265617574792069732074727574682c20747275746820626561757479\nend\nhpkebatch 1\ncontext 0 shared\nlane 0\nsealed 0 f938558b5d72f1a23810b4be2ab4f84331acc02fc97babc53a52ae8218a355a96d8770ac83d07bea87e13c512a\nsealed 1 af2d7e9ac9ae7e270f46ba1f975be53c09f8d875bdc8535458c2494e8a6eab251c03d0c22a56b8ca42c2063b84\njournal 0\n0 0 0\n0 1 0\nend\n",
        outcome: Outcome::Done,
        text: "legal\n",
    },
    Other {
        source: "RFC 9180, A.1.1.1; a guess that missed one message more",
        words: &["check", "--mult=lanes"],
        input: "hpkebatch 1\nshare recv 32 1 1 fe0e18c9f024ce43799ae393c7e8fe8fce9d218875e8227b0187c04e7d2ea1fc base 4f6465206f6e2061204772656369616e2055726e - - 9\nlane\nunsealall 0 436f756e742d30 f938558b5d72f1a23810b4be2ab4f84331acc02fc97babc53a52ae8218a355a96d8770ac83d07bea87e13c512a 436f756e742d31 af2d7e9ac9ae7e270f46ba1f975be53c09f8d875bdc8535458c2494e8a6eab251c03d0c22a56b8ca42c2063b85 436f756e742d31 af2d7e9ac9ae7e270f46ba1f975be53c09f8d875bdc8535458c2494e8a6eab251c03d0c22a56b8ca42c2063b84\nend\nhpkebatch 1\ncontext 0 shared\nlane 0\nopened 0 4265617574792069732074727574682c20747275746820626561757479\nfailed 1\nopened 1 4265617574792069732074727574682c20747275746820626561757479\nbatch 0 1\njournal 0\n0 0 0\n0 0 1\n0 0 2\nend\n",
        outcome: Outcome::Broken {
            verdict: Verdict::Guess { line: 7 },
        },
        text: "broken guess 7\n",
    },
    Other {
        source: "own: a batch without its end",
        words: &["check"],
        input: "hpkebatch 2\nlane\n",
        outcome: Outcome::BadBatch {
            line: 3,
            reason: Reason::NoEnd,
        },
        text: "bad 3 noend\n",
    },
    Other {
        source: "own: no ask to take an answer for",
        words: &["capsules"],
        input: "hpkebatch 2\ntake 5 00\nend\n",
        outcome: Outcome::Done,
        text: "hpkebatch 2\nrefused noask\nend\n",
    },
    Other {
        source: "own: capsules are of version 2",
        words: &["capsules", "--mult", "karatsuba"],
        input: "hpkebatch 1\nend\n",
        outcome: Outcome::BadBatch {
            line: 1,
            reason: Reason::Header,
        },
        text: "bad 1 header\n",
    },
    Other {
        source: "RFC 9180, A.1.1.1: the batch of `live` below and its reply",
        words: &["check", "--live"],
        input: "hpkebatch 2\nlane\nseal +0 436f756e742d30 4265617574792069732074727574682c20747275746820626561757479\nadd send 32 1 1 fe0e18c9f024ce43799ae393c7e8fe8fce9d218875e8227b0187c04e7d2ea1fc base 4f6465206f6e2061204772656369616e2055726e - - 9\nseal +0 436f756e742d30 4265617574792069732074727574682c20747275746820626561757479\nretire +0\nseal +0 436f756e742d30 4265617574792069732074727574682c20747275746820626561757479\nend\nhpkebatch 2\nlane 0\nrefused nocontext\nadded\nsealed 0 f938558b5d72f1a23810b4be2ab4f84331acc02fc97babc53a52ae8218a355a96d8770ac83d07bea87e13c512a\nretired\nrefused nocontext\njournal +0\n0 2 0 3\ntable\n0 0 0 0\n0 1 0 1\n0 2 1 2\n0 3 1 4\n0 4 0 5\nend\n",
        outcome: Outcome::Done,
        text: "legal\n",
    },
    Other {
        source: "own: the same, with a table that calls the name dead which is retired",
        words: &["check", "--mult", "lanes", "--live"],
        input: "hpkebatch 2\nlane\nseal +0 436f756e742d30 4265617574792069732074727574682c20747275746820626561757479\nadd send 32 1 1 fe0e18c9f024ce43799ae393c7e8fe8fce9d218875e8227b0187c04e7d2ea1fc base 4f6465206f6e2061204772656369616e2055726e - - 9\nseal +0 436f756e742d30 4265617574792069732074727574682c20747275746820626561757479\nretire +0\nseal +0 436f756e742d30 4265617574792069732074727574682c20747275746820626561757479\nend\nhpkebatch 2\nlane 0\nrefused nocontext\nadded\nsealed 0 f938558b5d72f1a23810b4be2ab4f84331acc02fc97babc53a52ae8218a355a96d8770ac83d07bea87e13c512a\nretired\nrefused nocontext\njournal +0\n0 2 0 3\ntable\n0 0 0 0\n0 1 0 1\n0 2 1 2\n0 3 0 4\n0 4 0 5\nend\n",
        outcome: Outcome::Broken {
            verdict: Verdict::Table,
        },
        text: "broken table\n",
    },
    Other {
        source: "RFC 9180, A.1.1.1: a context is called before it is added, then, and after it is retired",
        words: &["live", "--workers", "1"],
        input: "hpkebatch 2\nlane\nseal +0 436f756e742d30 4265617574792069732074727574682c20747275746820626561757479\nadd send 32 1 1 fe0e18c9f024ce43799ae393c7e8fe8fce9d218875e8227b0187c04e7d2ea1fc base 4f6465206f6e2061204772656369616e2055726e - - 9\nseal +0 436f756e742d30 4265617574792069732074727574682c20747275746820626561757479\nretire +0\nseal +0 436f756e742d30 4265617574792069732074727574682c20747275746820626561757479\nend\n",
        outcome: Outcome::Done,
        text: "hpkebatch 2\nlane 0\nrefused nocontext\nadded\nsealed 0 f938558b5d72f1a23810b4be2ab4f84331acc02fc97babc53a52ae8218a355a96d8770ac83d07bea87e13c512a\nretired\nrefused nocontext\njournal +0\n0 2 0 3\ntable\n0 0 0 0\n0 1 0 1\n0 2 1 2\n0 3 1 4\n0 4 0 5\nend\n",
    },
    Other {
        source: "own: a name that no line adds is retired; it has no note",
        words: &["live"],
        input: "hpkebatch 2\nlane\nretire +1\nadd send 32 1 1 fe0e18c9f024ce43799ae393c7e8fe8fce9d218875e8227b0187c04e7d2ea1fc base 4f6465206f6e2061204772656369616e2055726e - - 9\nend\n",
        outcome: Outcome::Done,
        text: "hpkebatch 2\nlane 0\nrefused nocontext\nadded\njournal +0\ntable\n0 1 0 0\nend\n",
    },
    Other {
        source: "own: contexts that are added with their psk inputs at fault",
        words: &["live", "--mult", "lanes"],
        input: "hpkebatch 2\nlane\nadd send 32 1 1 fe0e18c9f024ce43799ae393c7e8fe8fce9d218875e8227b0187c04e7d2ea1fc psk 4f6465206f6e2061204772656369616e2055726e - - 9\nadd send 32 1 1 fe0e18c9f024ce43799ae393c7e8fe8fce9d218875e8227b0187c04e7d2ea1fc base 4f6465206f6e2061204772656369616e2055726e 00 00 9\nadd send 32 1 1 fe0e18c9f024ce43799ae393c7e8fe8fce9d218875e8227b0187c04e7d2ea1fc psk 4f6465206f6e2061204772656369616e2055726e 00 - 9\nseal +0 436f756e742d30 4265617574792069732074727574682c20747275746820626561757479\nretire +1\nend\n",
        outcome: Outcome::Done,
        text: "hpkebatch 2\nlane 0\nrefused pskmissing\nrefused pskextra\nrefused pskpair\nrefused nocontext\nrefused nocontext\njournal +0\njournal +1\njournal +2\ntable\n0 3 0 0\n0 4 0 1\nend\n",
    },
    Other {
        source: "RFC 9180, A.1.1.1 and A.1.1.2, and tools/reference: an opening of several messages doesn't find its context, and keeps no guess",
        words: &["live", "--workers=1"],
        input: "hpkebatch 2\nlane\nunsealall +0 436f756e742d30 f938558b5d72f1a23810b4be2ab4f84331acc02fc97babc53a52ae8218a355a96d8770ac83d07bea87e13c512a 436f756e742d30 f938558b5d72f1a23810b4be2ab4f84331acc02fc97babc53a52ae8218a355a96d8770ac83d07bea87e13c512a\nadd recv 32 1 1 fe0e18c9f024ce43799ae393c7e8fe8fce9d218875e8227b0187c04e7d2ea1fc base 4f6465206f6e2061204772656369616e2055726e - - 9\nunsealall +0 436f756e742d30 f938558b5d72f1a23810b4be2ab4f84331acc02fc97babc53a52ae8218a355a96d8770ac83d07bea87e13c512a 436f756e742d30 f938558b5d72f1a23810b4be2ab4f84331acc02fc97babc53a52ae8218a355a96d8770ac83d07bea87e13c512a\nexport +0 - 32\nend\n",
        outcome: Outcome::Done,
        text: "hpkebatch 2\nlane 0\nrefused nocontext\nadded\nopened 0 4265617574792069732074727574682c20747275746820626561757479\nfailed 1\nbatch 0 0\nexported 3853fe2b4035195a573ffc53856e77058e15d9ea064de3e59f4961d0095250ee\njournal +0\n0 2 0 3\n0 2 1 4\ntable\n0 0 0 0\n0 1 0 1\n0 2 1 2\n0 3 1 5\nend\n",
    },
    Other {
        source: "own: a batch of version 1",
        words: &["live"],
        input: "hpkebatch 1\nend\n",
        outcome: Outcome::BadBatch {
            line: 1,
            reason: Reason::Header,
        },
        text: "bad 1 header\n",
    },
];

pub fn others() -> &'static [Other; 15] {
    &OTHERS
}
