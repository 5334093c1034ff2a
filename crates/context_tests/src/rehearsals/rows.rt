//! The rows of the rehearsals: what lanes are answered with, and journals. They are own, by hand, but
//! for the last one.

use crate::rehearsals::wants::{LaneWant, Want};
use batch_plans::{Batch, CallRefusal, Reply};
use call_places::Span;

// RFC 9180, A.1.1.1: pt, and the ciphertexts of the sequence numbers 0 and 1.
const TEXT: &str = "4265617574792069732074727574682c20747275746820626561757479";

const SEALED_0: &str =
    "f938558b5d72f1a23810b4be2ab4f84331acc02fc97babc53a52ae8218a355a96d8770ac83d07bea87e13c512a";

const SEALED_1: &str =
    "af2d7e9ac9ae7e270f46ba1f975be53c09f8d875bdc8535458c2494e8a6eab251c03d0c22a56b8ca42c2063b84";

// Room that nothing is written to.
const NO_TEXT: &str = "0000000000000000000000000000000000000000000000000000000000";

const NO_CIPHERTEXT: &str =
    "000000000000000000000000000000000000000000000000000000000000000000000000000000000000000000";

const NOTHING: LaneWant = LaneWant {
    pool: &[],
    replies: &[],
    batches: &[],
};

pub(crate) static LANE_1_FIRST: Want = Want {
    name: "lane 1 first",
    lanes: &[
        LaneWant {
            pool: &[SEALED_1],
            replies: &[Reply::Sealed {
                number: 1,
                text: Span { start: 0, len: 45 },
            }],
            batches: &[],
        },
        LaneWant {
            pool: &[SEALED_0],
            replies: &[Reply::Sealed {
                number: 0,
                text: Span { start: 0, len: 45 },
            }],
            batches: &[],
        },
    ],
    journals: [&[(1, 0, 0, 0), (0, 0, 0, 1)], &[]],
};

pub(crate) static LANES_NOT_THERE: Want = Want {
    name: "lanes that aren't there",
    lanes: &[
        LaneWant {
            pool: &[SEALED_0],
            replies: &[Reply::Sealed {
                number: 0,
                text: Span { start: 0, len: 45 },
            }],
            batches: &[],
        },
        LaneWant {
            pool: &[SEALED_1],
            replies: &[Reply::Sealed {
                number: 1,
                text: Span { start: 0, len: 45 },
            }],
            batches: &[],
        },
    ],
    journals: [&[(0, 0, 0, 0), (1, 0, 0, 1)], &[]],
};

pub(crate) static CHANGED_TAG: Want = Want {
    name: "a changed tag between two messages",
    lanes: &[
        LaneWant {
            pool: &[TEXT, NO_TEXT, TEXT],
            replies: &[
                Reply::Opened {
                    number: 0,
                    text: Span { start: 0, len: 29 },
                },
                Reply::Failed { number: 1 },
                Reply::Opened {
                    number: 1,
                    text: Span { start: 58, len: 29 },
                },
            ],
            batches: &[Batch {
                guess: 0,
                missed: 0,
            }],
        },
        NOTHING,
    ],
    journals: [&[], &[(0, 0, 0, 0), (0, 0, 1, 1), (0, 0, 2, 2)]],
};

pub(crate) static FIVE_CHANGED_TAGS: Want = Want {
    name: "five changed tags before a message",
    lanes: &[
        LaneWant {
            pool: &[NO_TEXT, NO_TEXT, NO_TEXT, NO_TEXT, NO_TEXT, TEXT],
            replies: &[
                Reply::Failed { number: 0 },
                Reply::Failed { number: 0 },
                Reply::Failed { number: 0 },
                Reply::Failed { number: 0 },
                Reply::Failed { number: 0 },
                Reply::Opened {
                    number: 0,
                    text: Span {
                        start: 145,
                        len: 29,
                    },
                },
            ],
            batches: &[Batch {
                guess: 0,
                missed: 2,
            }],
        },
        NOTHING,
    ],
    journals: [
        &[],
        &[
            (0, 0, 0, 0),
            (0, 0, 1, 1),
            (0, 0, 2, 2),
            (0, 0, 3, 3),
            (0, 0, 4, 4),
            (0, 0, 5, 5),
        ],
    ],
};

pub(crate) static STALE_GUESS: Want = Want {
    name: "a stale guess",
    lanes: &[
        LaneWant {
            pool: &[TEXT],
            replies: &[Reply::Opened {
                number: 1,
                text: Span { start: 0, len: 29 },
            }],
            batches: &[Batch {
                guess: 0,
                missed: 1,
            }],
        },
        LaneWant {
            pool: &[TEXT],
            replies: &[Reply::Opened {
                number: 0,
                text: Span { start: 0, len: 29 },
            }],
            batches: &[],
        },
    ],
    journals: [&[], &[(1, 0, 0, 0), (0, 0, 0, 1)]],
};

pub(crate) static REPLAY: Want = Want {
    name: "a replay",
    lanes: &[
        LaneWant {
            pool: &[TEXT, NO_TEXT],
            replies: &[
                Reply::Opened {
                    number: 0,
                    text: Span { start: 0, len: 29 },
                },
                Reply::Failed { number: 1 },
            ],
            batches: &[Batch {
                guess: 0,
                missed: 0,
            }],
        },
        NOTHING,
    ],
    journals: [&[], &[(0, 0, 0, 0), (0, 0, 1, 1)]],
};

pub(crate) static TWO_CONTEXTS: Want = Want {
    name: "two contexts",
    lanes: &[
        LaneWant {
            pool: &[SEALED_0, TEXT, TEXT],
            replies: &[
                Reply::Sealed {
                    number: 0,
                    text: Span { start: 0, len: 45 },
                },
                Reply::Opened {
                    number: 0,
                    text: Span { start: 45, len: 29 },
                },
                Reply::Opened {
                    number: 1,
                    text: Span { start: 74, len: 29 },
                },
            ],
            batches: &[Batch {
                guess: 0,
                missed: 0,
            }],
        },
        LaneWant {
            pool: &[SEALED_1],
            replies: &[Reply::Sealed {
                number: 1,
                text: Span { start: 0, len: 45 },
            }],
            batches: &[],
        },
    ],
    journals: [&[(0, 0, 0, 0), (1, 0, 0, 1)], &[(0, 1, 0, 2), (0, 1, 1, 3)]],
};

pub(crate) static LIMIT_1: Want = Want {
    name: "LIMIT is 1",
    lanes: &[
        LaneWant {
            pool: &[SEALED_0, NO_CIPHERTEXT],
            replies: &[
                Reply::Sealed {
                    number: 0,
                    text: Span { start: 0, len: 45 },
                },
                Reply::Limit,
            ],
            batches: &[],
        },
        LaneWant {
            pool: &[TEXT, NO_TEXT, NO_TEXT],
            replies: &[
                Reply::Opened {
                    number: 0,
                    text: Span { start: 0, len: 29 },
                },
                Reply::Limit,
                Reply::Failed { number: 1 },
            ],
            batches: &[],
        },
    ],
    journals: [
        &[(0, 0, 0, 0), (0, 1, 0, 1)],
        &[(1, 0, 0, 2), (1, 1, 0, 3), (1, 2, 0, 4)],
    ],
};

// By tools/reference/hpkebatch.py, with the room for what failed.
pub(crate) static ALL_KINDS: Want = Want {
    name: "all kinds of calls",
    lanes: &[
        LaneWant {
            pool: &[
                "f938558b5d72f1a23810b4be2ab4f84331acc02fc97babc53a52ae8218\
                cedaeec0560dc421ed0683c829888eae",
                NO_TEXT,
                NO_TEXT,
                TEXT,
                "3853fe2b4035195a573ffc53856e77058e15d9ea064de3e59f4961d0095250ee",
                NO_TEXT,
            ],
            replies: &[
                Reply::Sealed {
                    number: 0,
                    text: Span { start: 0, len: 45 },
                },
                Reply::Failed { number: 1 },
                Reply::Failed { number: 1 },
                Reply::Opened {
                    number: 1,
                    text: Span {
                        start: 103,
                        len: 29,
                    },
                },
                Reply::Exported {
                    text: Span {
                        start: 132,
                        len: 32,
                    },
                },
                Reply::Refused(CallRefusal::Role),
                Reply::Failed { number: 2 },
            ],
            batches: &[
                Batch {
                    guess: 0,
                    missed: 1,
                },
                Batch {
                    guess: 2,
                    missed: 0,
                },
            ],
        },
        LaneWant {
            pool: &[
                "af2d7e9ac9ae7e270f46ba1f975be53c09f8d875bdc8535458c2494e8a\
                032462b1d2adaa886bc5a30d0ab2e400",
                TEXT,
                "c64c2b1762c6f6ad6869ed74054443eedfb338d4773e4bcbf1defb823847a422",
            ],
            replies: &[
                Reply::Refused(CallRefusal::Role),
                Reply::Sealed {
                    number: 1,
                    text: Span { start: 0, len: 45 },
                },
                Reply::Opened {
                    number: 0,
                    text: Span { start: 45, len: 29 },
                },
                Reply::Exported {
                    text: Span { start: 74, len: 32 },
                },
            ],
            batches: &[],
        },
    ],
    journals: [
        &[(0, 0, 0, 0), (1, 1, 0, 1)],
        &[
            (1, 2, 0, 2),
            (0, 1, 0, 3),
            (0, 1, 1, 4),
            (0, 1, 2, 5),
            (0, 4, 0, 6),
        ],
    ],
};
