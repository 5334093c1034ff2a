//! Answers that are given, and the replies that they are printed as, by hand.

use call_places::{Item, Span};
use request_frames::{Batch, CallLine, CallRefusal, Reply};

// The pool of each lane: RFC 9180, A.1.1.1, pt, and ct at the sequence numbers 0 and 1.
pub const POOL: [u8; 119] = [
    0x42, 0x65, 0x61, 0x75, 0x74, 0x79, 0x20, 0x69, 0x73, 0x20, 0x74, 0x72, 0x75, 0x74, 0x68, 0x2c,
    0x20, 0x74, 0x72, 0x75, 0x74, 0x68, 0x20, 0x62, 0x65, 0x61, 0x75, 0x74, 0x79, 0xf9, 0x38, 0x55,
    0x8b, 0x5d, 0x72, 0xf1, 0xa2, 0x38, 0x10, 0xb4, 0xbe, 0x2a, 0xb4, 0xf8, 0x43, 0x31, 0xac, 0xc0,
    0x2f, 0xc9, 0x7b, 0xab, 0xc5, 0x3a, 0x52, 0xae, 0x82, 0x18, 0xa3, 0x55, 0xa9, 0x6d, 0x87, 0x70,
    0xac, 0x83, 0xd0, 0x7b, 0xea, 0x87, 0xe1, 0x3c, 0x51, 0x2a, 0xaf, 0x2d, 0x7e, 0x9a, 0xc9, 0xae,
    0x7e, 0x27, 0x0f, 0x46, 0xba, 0x1f, 0x97, 0x5b, 0xe5, 0x3c, 0x09, 0xf8, 0xd8, 0x75, 0xbd, 0xc8,
    0x53, 0x54, 0x58, 0xc2, 0x49, 0x4e, 0x8a, 0x6e, 0xab, 0x25, 0x1c, 0x03, 0xd0, 0xc2, 0x2a, 0x56,
    0xb8, 0xca, 0x42, 0xc2, 0x06, 0x3b, 0x84,
];

const PT: Span = Span { start: 0, len: 29 };

const CT_0: Span = Span { start: 29, len: 45 };

const CT_1: Span = Span { start: 74, len: 45 };

const SEALED_0: Reply = Reply::Sealed {
    number: 0,
    text: CT_0,
};

const SEALED_1: Reply = Reply::Sealed {
    number: 1,
    text: CT_1,
};

const OPENED_0: Reply = Reply::Opened {
    number: 0,
    text: PT,
};

const OPENED_1: Reply = Reply::Opened {
    number: 1,
    text: PT,
};

const FAILED_0: Reply = Reply::Failed { number: 0 };

const FAILED_1: Reply = Reply::Failed { number: 1 };

const ROLE: Reply = Reply::Refused(CallRefusal::Role);

const NOTHING: Span = Span { start: 0, len: 0 };

const EMPTY: Item = Item {
    aad: NOTHING,
    text: NOTHING,
};

const SEAL: CallLine = CallLine::Seal {
    context: 0,
    item: EMPTY,
};

const UNSEAL: CallLine = CallLine::Unseal {
    context: 0,
    item: EMPTY,
};

const OPEN_ONE: CallLine = CallLine::UnsealAll {
    context: 0,
    first: 0,
    count: 1,
};

const OPEN_TWO: CallLine = CallLine::UnsealAll {
    context: 1,
    first: 0,
    count: 2,
};

const OPEN_THREE: CallLine = CallLine::UnsealAll {
    context: 0,
    first: 0,
    count: 3,
};

const OPEN_SIX: CallLine = CallLine::UnsealAll {
    context: 0,
    first: 0,
    count: 6,
};

const OPEN_AS_SENDER: CallLine = CallLine::UnsealAll {
    context: 0,
    first: 0,
    count: 2,
};

const NO_MISS: Batch = Batch {
    guess: 0,
    missed: 0,
};

const ONE_MISSED: Batch = Batch {
    guess: 0,
    missed: 1,
};

const TWO_MISSED: Batch = Batch {
    guess: 0,
    missed: 2,
};

// The calls of a lane, and the answers to them over POOL.
pub struct LaneCase {
    pub calls: &'static [CallLine],
    pub replies: &'static [Reply],
    pub batches: &'static [Batch],
}

// The answers to a batch whose contexts are all given, and their text by hand. A journal is a list
// of lane, call, item and stamp.
pub struct ReplyCase {
    pub source: &'static str,
    pub version: u8,
    pub contexts: usize,
    pub lanes: &'static [LaneCase],
    pub journals: &'static [&'static [(u32, u32, u32, u64)]],
    pub text: &'static str,
}

pub static REPLIES: [ReplyCase; 7] = [
    ReplyCase {
        source: "own: an opening of three messages, of which the second is forged",
        version: 1,
        contexts: 1,
        lanes: &[LaneCase {
            calls: &[OPEN_THREE],
            replies: &[OPENED_0, FAILED_1, OPENED_1],
            batches: &[NO_MISS],
        }],
        journals: &[&[(0, 0, 0, 0), (0, 0, 1, 1), (0, 0, 2, 2)]],
        text: OPENING,
    },
    ReplyCase {
        source: "own: an opening of three messages, of which the second is forged, in version 2",
        version: 2,
        contexts: 1,
        lanes: &[LaneCase {
            calls: &[OPEN_THREE],
            replies: &[OPENED_0, FAILED_1, OPENED_1],
            batches: &[NO_MISS],
        }],
        journals: &[&[(0, 0, 0, 0), (0, 0, 1, 1), (0, 0, 2, 2)]],
        text: OPENING_STAMPED,
    },
    ReplyCase {
        source: "own: an opening whose last two messages had numbers that weren't tested",
        version: 1,
        contexts: 1,
        lanes: &[LaneCase {
            calls: &[OPEN_SIX],
            replies: &[FAILED_0, FAILED_0, FAILED_0, FAILED_0, FAILED_0, OPENED_0],
            batches: &[TWO_MISSED],
        }],
        journals: &[&[
            (0, 0, 0, 0),
            (0, 0, 1, 1),
            (0, 0, 2, 2),
            (0, 0, 3, 3),
            (0, 0, 4, 4),
            (0, 0, 5, 5),
        ]],
        text: MISSED,
    },
    ReplyCase {
        source: "own: a guess that was stale, of an opening of one message",
        version: 1,
        contexts: 1,
        lanes: &[
            LaneCase {
                calls: &[OPEN_ONE],
                replies: &[OPENED_1],
                batches: &[ONE_MISSED],
            },
            LaneCase {
                calls: &[UNSEAL],
                replies: &[OPENED_0],
                batches: &[],
            },
        ],
        journals: &[&[(1, 0, 0, 0), (0, 0, 0, 1)]],
        text: STALE,
    },
    ReplyCase {
        source: "own: two lanes on one context, in version 2",
        version: 2,
        contexts: 1,
        lanes: &[
            LaneCase {
                calls: &[SEAL],
                replies: &[SEALED_1],
                batches: &[],
            },
            LaneCase {
                calls: &[SEAL],
                replies: &[SEALED_0],
                batches: &[],
            },
        ],
        journals: &[&[(1, 0, 0, 0), (0, 0, 0, 1)]],
        text: TWO_LANES,
    },
    ReplyCase {
        source: "own: two lanes on two contexts, in version 2",
        version: 2,
        contexts: 2,
        lanes: &[
            LaneCase {
                calls: &[SEAL, OPEN_TWO],
                replies: &[SEALED_0, OPENED_0, OPENED_1],
                batches: &[NO_MISS],
            },
            LaneCase {
                calls: &[SEAL],
                replies: &[SEALED_1],
                batches: &[],
            },
        ],
        journals: &[&[(0, 0, 0, 0), (1, 0, 0, 1)], &[(0, 1, 0, 2), (0, 1, 1, 3)]],
        text: TWO_CONTEXTS,
    },
    ReplyCase {
        source: "own: an opening that is refused has one reply, and no guess",
        version: 1,
        contexts: 2,
        lanes: &[LaneCase {
            calls: &[OPEN_AS_SENDER, OPEN_TWO, SEAL],
            replies: &[ROLE, OPENED_0, OPENED_1, SEALED_0],
            batches: &[NO_MISS],
        }],
        journals: &[&[(0, 2, 0, 2)], &[(0, 1, 0, 0), (0, 1, 1, 1)]],
        text: REFUSED,
    },
];

const OPENING: &str = "hpkebatch 1
context 0 shared
lane 0
opened 0 4265617574792069732074727574682c20747275746820626561757479
failed 1
opened 1 4265617574792069732074727574682c20747275746820626561757479
batch 0 0
journal 0
0 0 0
0 0 1
0 0 2
end
";

const OPENING_STAMPED: &str = "hpkebatch 2
context 0 shared
lane 0
opened 0 4265617574792069732074727574682c20747275746820626561757479
failed 1
opened 1 4265617574792069732074727574682c20747275746820626561757479
batch 0 0
journal 0
0 0 0 0
0 0 1 1
0 0 2 2
end
";

const MISSED: &str = "hpkebatch 1
context 0 shared
lane 0
failed 0
failed 0
failed 0
failed 0
failed 0
opened 0 4265617574792069732074727574682c20747275746820626561757479
batch 0 2
journal 0
0 0 0
0 0 1
0 0 2
0 0 3
0 0 4
0 0 5
end
";

const STALE: &str = "hpkebatch 1
context 0 shared
lane 0
opened 1 4265617574792069732074727574682c20747275746820626561757479
batch 0 1
lane 1
opened 0 4265617574792069732074727574682c20747275746820626561757479
journal 0
1 0 0
0 0 0
end
";

const TWO_LANES: &str = "hpkebatch 2
context 0 shared
lane 0
sealed 1 af2d7e9ac9ae7e270f46ba1f975be53c09f8d875bdc8535458c2494e8a6eab251c03d0c22a56b8ca42c2063b84
lane 1
sealed 0 f938558b5d72f1a23810b4be2ab4f84331acc02fc97babc53a52ae8218a355a96d8770ac83d07bea87e13c512a
journal 0
1 0 0 0
0 0 0 1
end
";

const TWO_CONTEXTS: &str = "hpkebatch 2
context 0 shared
context 1 shared
lane 0
sealed 0 f938558b5d72f1a23810b4be2ab4f84331acc02fc97babc53a52ae8218a355a96d8770ac83d07bea87e13c512a
opened 0 4265617574792069732074727574682c20747275746820626561757479
opened 1 4265617574792069732074727574682c20747275746820626561757479
batch 0 0
lane 1
sealed 1 af2d7e9ac9ae7e270f46ba1f975be53c09f8d875bdc8535458c2494e8a6eab251c03d0c22a56b8ca42c2063b84
journal 0
0 0 0 0
1 0 0 1
journal 1
0 1 0 2
0 1 1 3
end
";

const REFUSED: &str = "hpkebatch 1
context 0 shared
context 1 shared
lane 0
refused role
opened 0 4265617574792069732074727574682c20747275746820626561757479
opened 1 4265617574792069732074727574682c20747275746820626561757479
batch 0 0
sealed 0 f938558b5d72f1a23810b4be2ab4f84331acc02fc97babc53a52ae8218a355a96d8770ac83d07bea87e13c512a
journal 0
0 2 0
journal 1
0 1 0
0 1 1
end
";
