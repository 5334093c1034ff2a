//! Answers with each form of a reply, and a plan for them.

use call_places::{Item, Mark, Place, Span};
use hkdf_labelled::{Aead, Kdf};
use key_schedule::{Mode, Role};
use request_frames::{
    Answers, Batch, CallLine, CallRefusal, ContextKind, ContextLine, ContextRefusal, ContextReply,
    KeyLine, KeyRefusal, KeyReply, LaneAnswers, LaneLines, PlainList, Plan, Reply,
};
use std::alloc::{AllocError, Global};
use std::process::Abort;

const NOTHING: Span = Span { start: 0, len: 0 };

// Each form of a reply, over the pool below.
pub const POOL: [u8; 4] = [0xde, 0xad, 0xbe, 0xef];

pub static FORMS: [Reply; 15] = [
    Reply::Sealed {
        number: 0,
        text: Span { start: 0, len: 4 },
    },
    Reply::Opened {
        number: u64::MAX,
        text: Span { start: 1, len: 1 },
    },
    Reply::Opened {
        number: 9,
        text: Span { start: 4, len: 0 },
    },
    Reply::Failed { number: 10 },
    Reply::Limit,
    Reply::Exported {
        text: Span { start: 2, len: 2 },
    },
    Reply::Refused(CallRefusal::NoContext),
    Reply::Refused(CallRefusal::Role),
    Reply::Refused(CallRefusal::NoCipher),
    Reply::Refused(CallRefusal::ExportSize),
    Reply::Refused(CallRefusal::PskPair),
    Reply::Refused(CallRefusal::PskExtra),
    Reply::Refused(CallRefusal::PskMissing),
    Reply::Added,
    Reply::Retired,
];

pub fn list<T: Copy>(rt: &impl Abort, alloc: Global, items: &[T]) -> PlainList<T> {
    PlainList::from_vec(items.to_vec(alloc).expect(rt, "memory"))
}

fn list_of<T: Drop, const N: usize>(rt: &impl Abort, alloc: Global, items: [T; N]) -> PlainList<T> {
    match Vec::from_array(alloc, items) {
        Ok(items) => PlainList::from_vec(items),
        Err(_) => panic!(rt; "memory"),
    }
}

pub fn keys(rt: &impl Abort, alloc: Global) -> PlainList<KeyReply> {
    list_of(
        rt,
        alloc,
        [
            KeyReply::Generated {
                public: list(rt, alloc, [1, 2].as_slice()),
                secret: list(rt, alloc, [0xab].as_slice()),
            },
            KeyReply::Secret {
                public: list(rt, alloc, [0xff].as_slice()),
            },
            KeyReply::Peer,
            KeyReply::Refused(KeyRefusal::Exhausted),
            KeyReply::Refused(KeyRefusal::NoInverse),
            KeyReply::Refused(KeyRefusal::Length),
            KeyReply::Refused(KeyRefusal::Form),
        ],
    )
}

pub fn contexts(rt: &impl Abort, alloc: Global) -> PlainList<ContextReply> {
    list_of(
        rt,
        alloc,
        [
            ContextReply::Shared,
            ContextReply::Sender {
                enc: list(rt, alloc, [0, 0x7f].as_slice()),
            },
            ContextReply::Recipient,
            ContextReply::Refused(ContextRefusal::NoKey),
            ContextReply::Refused(ContextRefusal::NeedSecret),
            ContextReply::Refused(ContextRefusal::NoEnc),
            ContextReply::Refused(ContextRefusal::EncSize),
            ContextReply::Refused(ContextRefusal::PskPair),
            ContextReply::Refused(ContextRefusal::PskExtra),
            ContextReply::Refused(ContextRefusal::PskMissing),
        ],
    )
}

// A batch of so many keys and contexts.
pub fn plan_of(
    rt: &impl Abort,
    alloc: Global,
    version: u8,
    keys: usize,
    contexts: usize,
    lanes: LaneLines,
) -> Plan {
    let context = ContextLine {
        kind: ContextKind::Share {
            role: Role::Sender,
            kem: 32,
            secret: NOTHING,
        },
        kdf: Kdf::Sha256,
        aead: Aead::Aes128,
        mode: Mode::Base,
        info: NOTHING,
        psk: NOTHING,
        psk_id: NOTHING,
        limit: 1,
    };
    let keys = vec![in alloc; KeyLine::Generate; keys].expect(rt, "memory");
    let contexts = vec![in alloc; context; contexts].expect(rt, "memory");
    Plan {
        version,
        seed: None,
        pool: PlainList::from_vec(Vec::new(alloc)),
        keys: PlainList::from_vec(keys),
        contexts: PlainList::from_vec(contexts),
        items: PlainList::from_vec(Vec::new(alloc)),
        lanes,
        added: 0,
    }
}

pub fn plan(rt: &impl Abort, alloc: Global) -> Plan {
    let seal = CallLine::Seal {
        context: 0,
        item: Item {
            aad: NOTHING,
            text: NOTHING,
        },
    };
    let open = CallLine::UnsealAll {
        context: 1,
        first: 0,
        count: 1,
    };
    let lanes = [
        list(rt, alloc, [seal; 15].as_slice()),
        list(rt, alloc, [open].as_slice()),
        PlainList::from_vec(Vec::new(alloc)),
    ];
    plan_of(rt, alloc, 2, 7, 10, list_of(rt, alloc, lanes))
}

fn lanes(rt: &impl Abort, alloc: Global) -> PlainList<LaneAnswers> {
    let guess = Batch {
        guess: u64::MAX,
        missed: u32::MAX,
    };
    let lanes = [
        LaneAnswers {
            pool: list(rt, alloc, POOL.as_slice()),
            replies: list(rt, alloc, FORMS.as_slice()),
            batches: PlainList::from_vec(Vec::new(alloc)),
        },
        LaneAnswers {
            pool: PlainList::from_vec(Vec::new(alloc)),
            replies: list(rt, alloc, [Reply::Limit].as_slice()),
            batches: list(rt, alloc, [guess].as_slice()),
        },
        LaneAnswers {
            pool: PlainList::from_vec(Vec::new(alloc)),
            replies: PlainList::from_vec(Vec::new(alloc)),
            batches: PlainList::from_vec(Vec::new(alloc)),
        },
    ];
    list_of(rt, alloc, lanes)
}

fn with_nine_empty(
    alloc: Global,
    first: PlainList<Mark>,
) -> Result<Vec<PlainList<Mark>>, AllocError> {
    let mut journals = Vec::new(alloc);
    journals.push(first)?;
    for _context in 1..10 {
        journals.push(PlainList::from_vec(Vec::new(alloc)))?;
    }
    Ok(journals)
}

fn journals(rt: &impl Abort, alloc: Global) -> PlainList<PlainList<Mark>> {
    let first = Place {
        lane: 0,
        call: 0,
        item: 0,
    };
    let last = Place {
        lane: u32::MAX,
        call: 10,
        item: 9,
    };
    let marks = [
        Mark {
            place: first,
            stamp: 1,
        },
        Mark {
            place: last,
            stamp: u64::MAX,
        },
    ];
    let first = list(rt, alloc, marks.as_slice());
    PlainList::from_vec(with_nine_empty(alloc, first).expect(rt, "memory"))
}

pub fn answers(rt: &impl Abort, alloc: Global) -> Answers {
    Answers {
        keys: keys(rt, alloc),
        contexts: contexts(rt, alloc),
        lanes: lanes(rt, alloc),
        journals: journals(rt, alloc),
        notes: PlainList::from_vec(Vec::new(alloc)),
    }
}
