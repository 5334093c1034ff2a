//! Whole batches of capsules, against another program.

use crate::expected::{array_of, assert_same};
use aes_gcm::MayCheck;
use batch_io::MemorySink;
use capsule_frames::{print_capsules, read_capsules, serve_capsules, serve_capsules_alone};
use field_text::Printed;
use ring_core::Plain;
use sha2::{Digest, Sha256};
use std::alloc::Global;
use std::process::Abort;
use std::thread::Threads;

// The seed of 32 zero bytes.
const HEAD: &[u8] =
    b"hpkebatch 2\nrand 0000000000000000000000000000000000000000000000000000000000000000\n";

// A batch of this key line and these lines, and the SHA-256 of its whole reply.
struct ReplyCase {
    what: &'static str,
    key: &'static [u8],
    lines: &'static [u8],
    sha256: &'static str,
}

// Own, by tools/vectors/capsule_replies.py (Python 3.11.7, cryptography 48.0.0).
static REPLIES: [ReplyCase; 12] = [
    ReplyCase {
        what: "a whole exchange",
        key: b"keygen\n",
        lines: b"ask 0 7 1 1 4265617574792069732074727574682c20747275746820626561757479\nanswer 0 7 @0 aaaaaaaaaaaaaaaaaaaaaaaaaaaaaaaa 4f6465206f6e2061204772656369616e2055726e\ntake 0 @0\n",
        sha256: "d612c64c15f8e03111ccfd5ac791fc093134c414aaaad44a2df3397c0e422f16",
    },
    ReplyCase {
        what: "a whole exchange, sntrup857",
        key: b"keygen857\n",
        lines: b"ask 0 7 1 1 4265617574792069732074727574682c20747275746820626561757479\nanswer 0 7 @0 aaaaaaaaaaaaaaaaaaaaaaaaaaaaaaaa 4f6465206f6e2061204772656369616e2055726e\ntake 0 @0\n",
        sha256: "f4c622d8f5096131eaae86ca3100300e7b4392707bd89888e705fdb77bc7bc3d",
    },
    ReplyCase {
        what: "texts of no bytes",
        key: b"keygen\n",
        lines: b"ask 0 7 3 2 -\nanswer 0 7 @0 aaaaaaaaaaaaaaaaaaaaaaaaaaaaaaaaaaaaaaaaaaaaaaaaaaaaaaaaaaaaaaaa -\ntake 0 @0\n",
        sha256: "a8a712cc3bab06d21340b524be856aff4891cc6b78d034449411931f045ba9b4",
    },
    ReplyCase {
        what: "texts of no bytes, sntrup857",
        key: b"keygen857\n",
        lines: b"ask 0 7 3 2 -\nanswer 0 7 @0 aaaaaaaaaaaaaaaaaaaaaaaaaaaaaaaaaaaaaaaaaaaaaaaaaaaaaaaaaaaaaaaa -\ntake 0 @0\n",
        sha256: "13b9ad8cc6cc66969757102579bd0aa22aa23a95a4f0add6fcb10142f6b3c77b",
    },
    ReplyCase {
        what: "a nonce of 15 bytes",
        key: b"keygen\n",
        lines: b"ask 0 7 1 1 4265617574792069732074727574682c20747275746820626561757479\nanswer 0 7 @0 aaaaaaaaaaaaaaaaaaaaaaaaaaaaaa 4f6465206f6e2061204772656369616e2055726e\ntake 0 @0\n",
        sha256: "46f5b69124d26dab2b253defa66c120fcc8fae295abeff90137903327dbf8a2c",
    },
    ReplyCase {
        what: "another identifier",
        key: b"keygen\n",
        lines: b"ask 0 7 1 1 4265617574792069732074727574682c20747275746820626561757479\nanswer 0 8 @0 aaaaaaaaaaaaaaaaaaaaaaaaaaaaaaaa 4f6465206f6e2061204772656369616e2055726e\ntake 0 @0\n",
        sha256: "ab7d53487d56d5bb32d38642d28aacd2524d0a56f23436b578415e8511f446d0",
    },
    ReplyCase {
        what: "a request of one byte",
        key: b"keygen\n",
        lines: b"ask 0 7 1 1 4265617574792069732074727574682c20747275746820626561757479\nanswer 0 7 00 aaaaaaaaaaaaaaaaaaaaaaaaaaaaaaaa -\ntake 0 @0\n",
        sha256: "f3ba1b48a5b8b08548f9ad8b8238828d4345739c2122dcc1603dadcb5c1f1739",
    },
    ReplyCase {
        what: "a response of zero bytes",
        key: b"keygen\n",
        lines: b"ask 0 7 1 1 4265617574792069732074727574682c20747275746820626561757479\nanswer 0 7 @0 aaaaaaaaaaaaaaaaaaaaaaaaaaaaaaaa 4f6465206f6e2061204772656369616e2055726e\ntake 0 0000000000000000000000000000000000000000000000000000000000000000\n",
        sha256: "16b97a100ef6f3788e118afa9937d5dc1040c75cb8c00b3156cad53960ac34b6",
    },
    ReplyCase {
        what: "an ask that isn't there, and a response of one byte",
        key: b"keygen\n",
        lines: b"ask 0 7 1 1 4265617574792069732074727574682c20747275746820626561757479\nanswer 0 7 @0 aaaaaaaaaaaaaaaaaaaaaaaaaaaaaaaa 4f6465206f6e2061204772656369616e2055726e\ntake 5 00\ntake 0 00\n",
        sha256: "5c6c8f020c2cf1bcda7abc5996b3681b0d856173753ef4d49f46d4a95317d6bc",
    },
    ReplyCase {
        what: "a response cut, changed and of another ask",
        key: b"keygen\n",
        lines: b"ask 0 7 1 1 4265617574792069732074727574682c20747275746820626561757479\nask 0 7 1 1 4265617574792069732074727574682c20747275746820626561757479\nanswer 0 7 @0 aaaaaaaaaaaaaaaaaaaaaaaaaaaaaaaa 4f6465206f6e2061204772656369616e2055726e\ntake 0 aaaaaaaaaaaaaaaaaaaaaaaaaaaaaaaafd48a79e4efad39a03c533b4412ac9dbcb65615df99e17676ce9e787e6440091b4f138\ntake 0 aaaaaaaaaaaaaaaaaaaaaaaaaaaaaaaafd48a79e5efad39a03c533b4412ac9dbcb65615df99e17676ce9e787e6440091b4f1387e\ntake 1 @0\ntake 0 aaaaaaaaaaaaaaaaaaaaaaaaaaaaaaaafd48a79e4efad39a03c533b4412ac9dbcb65615df99e17676ce9e787e6440091b4f1387e\n",
        sha256: "a23ec3f4ca7272e0349c7519afe2952ffe79daefad3ca09a6ec27dc6e7584291",
    },
    ReplyCase {
        what: "lines that are named too early",
        key: b"keygen\n",
        lines: b"answer 0 7 @0 aaaaaaaaaaaaaaaaaaaaaaaaaaaaaaaa 4f6465206f6e2061204772656369616e2055726e\ntake 0 @0\nask 0 7 1 1 4265617574792069732074727574682c20747275746820626561757479\ntake 0 @0\nanswer 0 7 @0 aaaaaaaaaaaaaaaaaaaaaaaaaaaaaaaa 4f6465206f6e2061204772656369616e2055726e\ntake 0 @0\ntake 0 @1\ntake 0 @2\n",
        sha256: "89ca815f22a65d7e095f81fa7361be11104638f12e0055990d0764dda9477035",
    },
    ReplyCase {
        what: "a key that isn't there",
        key: b"keygen\n",
        lines: b"ask 1 7 1 1 -\nanswer 1 7 @0 aaaaaaaaaaaaaaaaaaaaaaaaaaaaaaaa -\nanswer 0 7 @0 aaaaaaaaaaaaaaaaaaaaaaaaaaaaaaaa 4f6465206f6e2061204772656369616e2055726e\ntake 0 @0\n",
        sha256: "f293c0510236568a0675e9743c628ec900e2f6434df28a11ab0389a5649b1c73",
    },
];

// The SHA-256 of the reply to a batch, which threads answer, or the calling thread alone.
fn hash_of_reply<R: Threads + Abort + Sync>(
    rt: &R,
    alloc: Global,
    text: &[u8],
    alone: bool,
) -> [u8; 32] {
    let Ok(plan) = read_capsules(alloc, text) else {
        panic!(rt; "a batch");
    };
    let served = if alone {
        serve_capsules_alone(MayCheck::on_threads(rt), alloc, &plan, &Plain)
    } else {
        serve_capsules(rt, alloc, &plan, &Plain)
    };
    let answers = served.expect(rt, "memory");
    // The largest reply here has about 9 MB.
    let room = vec![in alloc; 0u8; 12_000_000].expect(rt, "memory");
    let mut sink = MemorySink::new(room, 65_536, Vec::new(alloc));
    let printed = print_capsules(&answers.keys, answers.replies.as_slice(), &mut sink);
    assert_same(rt, printed, Printed::Whole, "printed");
    Sha256::digest(sink.bytes())
}

// Adds the bytes so many times.
fn put(rt: &impl Abort, text: &mut Vec<u8>, bytes: &[u8], times: usize) {
    for _ in 0..times {
        text.extend_from_slice(bytes).expect(rt, "memory");
    }
}

fn assert_reply<R: Threads + Abort + Sync>(rt: &R, alloc: Global, case: &ReplyCase) {
    let mut text = Vec::new(alloc);
    for part in [HEAD, case.key, case.lines, b"end\n"] {
        put(rt, &mut text, part, 1);
    }
    let want: [u8; 32] = array_of(rt, case.sha256);
    for alone in [false, true] {
        let got = hash_of_reply(rt, alloc, &text, alone);
        assert_same(rt, got, want, case.what);
    }
}

#[test]
fn replies_are_those_of_another_program(rt: HostRuntime) {
    for case in &REPLIES {
        assert_reply(&rt, rt.alloc(), case);
    }
}

// 1,048,576 bytes `ab`.
fn put_large(rt: &impl Abort, text: &mut Vec<u8>) {
    put(rt, text, b"ab", 1_048_576);
    put(rt, text, b"\n", 1);
}

fn put_asks(rt: &impl Abort, text: &mut Vec<u8>) {
    put(rt, text, b"ask 0 7 1 1 ", 1);
    put_large(rt, text);
    put(rt, text, b"ask 0 7 1 1 -\n", 255);
}

fn put_answers(rt: &impl Abort, alloc: Global, text: &mut Vec<u8>) {
    put(
        rt,
        text,
        b"answer 0 7 @0 aaaaaaaaaaaaaaaaaaaaaaaaaaaaaaaa ",
        1,
    );
    put_large(rt, text);
    for number in 1..256 {
        let line = format!(in alloc; "answer 0 7 @{number} aaaaaaaaaaaaaaaaaaaaaaaaaaaaaaaa -\n");
        put(rt, text, line.expect(rt, "memory").as_bytes(), 1);
    }
}

fn put_takes(rt: &impl Abort, alloc: Global, text: &mut Vec<u8>) {
    for number in 0..256 {
        let line = format!(in alloc; "take {number} @{number}\n").expect(rt, "memory");
        put(rt, text, line.as_bytes(), 1);
    }
}

// 256 exchanges, the first with texts of 1,048,576 bytes, the others with none.
fn large_batch(rt: &impl Abort, alloc: Global) -> Vec<u8> {
    let mut text = Vec::new(alloc);
    put(rt, &mut text, HEAD, 1);
    put(rt, &mut text, b"keygen\n", 1);
    put_asks(rt, &mut text);
    put_answers(rt, alloc, &mut text);
    put_takes(rt, alloc, &mut text);
    put(rt, &mut text, b"end\n", 1);
    text
}

// Own, by tools/vectors/capsule_replies.py large.
#[test]
fn the_largest_texts_and_256_lines_of_each_kind_are_answered(rt: HostRuntime) {
    let text = large_batch(&rt, rt.alloc());
    let got = hash_of_reply(&rt, rt.alloc(), &text, false);
    let want = array_of(
        &rt,
        "7e0f38ef629822b925dfd66c09226ce5be1bc3a1e9e3206bd59c27fecffa6c95",
    );
    assert_same(&rt, got, want, "the reply");
}
