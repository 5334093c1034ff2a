//! Published messages and exports, sequence numbers, and refusals in their order.

ghost use Rattle.std.specs.Prelude.{◌≤◌, length};

use crate::expected::{array_of, assert_at, assert_bytes, assert_same, bytes_of};
use aes_gcm::Checks;
use hkdf_labelled::{Aead, Kdf, Suite};
use hpke_context::{CallFault, Context, Sequential};
use key_schedule::{Mode, Role, schedule};
use std::alloc::Global;
use std::process::Abort;
use std::test::Fail;
use std::thread::Threads;

// pt and info of each table of RFC 9180, appendix A.
const TEXT: &[u8; 29] = b"Beauty is truth, truth beauty";

const INFO: &[u8] = b"Ode on a Grecian Urn";

struct MessageCase {
    source: &'static str,
    seq: u64,
    aad: &'static [u8],
    ct: &'static str,
}

struct ContextCase {
    suite: Suite,
    shared_secret: &'static str,
    base_nonce: &'static str,
    messages: &'static [MessageCase],
}

// RFC 9180, A.1.1: DHKEM(X25519, HKDF-SHA256), HKDF-SHA256, AES-128-GCM, base.
static A_1_1: ContextCase = ContextCase {
    suite: Suite {
        kem: 0x0020,
        kdf: Kdf::Sha256,
        aead: Aead::Aes128,
    },
    shared_secret: "fe0e18c9f024ce43799ae393c7e8fe8fce9d218875e8227b0187c04e7d2ea1fc",
    base_nonce: "56d890e5accaaf011cff4b7d",
    messages: &[
        MessageCase {
            source: "RFC 9180, A.1.1.1, sequence number 0",
            seq: 0,
            aad: b"Count-0",
            ct: "f938558b5d72f1a23810b4be2ab4f84331acc02fc97babc53a52ae8218a355a96d8770ac83d07bea87e13c512a",
        },
        MessageCase {
            source: "RFC 9180, A.1.1.1, sequence number 1",
            seq: 1,
            aad: b"Count-1",
            ct: "af2d7e9ac9ae7e270f46ba1f975be53c09f8d875bdc8535458c2494e8a6eab251c03d0c22a56b8ca42c2063b84",
        },
        MessageCase {
            source: "own, tools/vectors/hpke_messages.py: A.1.1, sequence number 2",
            seq: 2,
            aad: b"Count-2",
            ct: "498dfcabd92e8acedc281e85af1cb4e3e31c7dc394a1ca20e173cb72516491588d96a19ad4a683518973dcc180",
        },
        MessageCase {
            source: "own, tools/vectors/hpke_messages.py: A.1.1, sequence number 4",
            seq: 4,
            aad: b"Count-4",
            ct: "583bd32bc67a5994bb8ceaca813d369bca7b2a42408cddef5e22f880b631215a09fc0012bc69fccaa251c0246d",
        },
        MessageCase {
            source: "own, tools/vectors/hpke_messages.py: A.1.1, sequence number 255",
            seq: 255,
            aad: b"Count-255",
            ct: "7175db9717964058640a3a11fb9007941a5d1757fda1a6935c805c21af32505bf106deefec4a49ac38d71c9e0a",
        },
        MessageCase {
            source: "own, tools/vectors/hpke_messages.py: A.1.1, sequence number 256",
            seq: 256,
            aad: b"Count-256",
            ct: "957f9800542b0b8891badb026d79cc54597cb2d225b54c00c5238c25d05c30e3fbeda97d2e0e1aba483a2df9f2",
        },
    ],
};

// RFC 9180, A.6.1: DHKEM(P-521, HKDF-SHA512), HKDF-SHA512, AES-256-GCM, base.
static A_6_1: ContextCase = ContextCase {
    suite: Suite {
        kem: 0x0012,
        kdf: Kdf::Sha512,
        aead: Aead::Aes256,
    },
    shared_secret: "776ab421302f6eff7d7cb5cb1adaea0cd50872c71c2d63c30c4f1d5e43653336fef33b103c67e7a98add2d3b66e2fda95b5b2a667aa9dac7e59cc1d46d30e818",
    base_nonce: "55ff7a7d739c69f44b25447b",
    messages: &[
        MessageCase {
            source: "own, tools/vectors/hpke_messages.py: A.6.1, sequence number 0",
            seq: 0,
            aad: b"Count-0",
            ct: "170f8beddfe949b75ef9c387e201baf4132fa7374593dfafa90768788b7b2b200aafcc6d80ea4c795a7c5b841a",
        },
        MessageCase {
            source: "own, tools/vectors/hpke_messages.py: A.6.1, sequence number 1",
            seq: 1,
            aad: b"Count-1",
            ct: "d9ee248e220ca24ac00bbbe7e221a832e4f7fa64c4fbab3945b6f3af0c5ecd5e16815b328be4954a05fd352256",
        },
        MessageCase {
            source: "own, tools/vectors/hpke_messages.py: A.6.1, sequence number 2",
            seq: 2,
            aad: b"Count-2",
            ct: "142cf1e02d1f58d9285f2af7dcfa44f7c3f2d15c73d460c48c6e0e506a3144bae35284e7e221105b61d24e1c7a",
        },
        MessageCase {
            source: "own, tools/vectors/hpke_messages.py: A.6.1, sequence number 4",
            seq: 4,
            aad: b"Count-4",
            ct: "3bb3a5a07100e5a12805327bf3b152df728b1c1be75a9fd2cb2bf5eac0cca1fb80addb37eb2a32938c7268e3e5",
        },
        MessageCase {
            source: "own, tools/vectors/hpke_messages.py: A.6.1, sequence number 255",
            seq: 255,
            aad: b"Count-255",
            ct: "4f268d0930f8d50b8fd9d0f26657ba25b5cb08b308c92e33382f369c768b558e113ac95a4c70dd60909ad1adc7",
        },
        MessageCase {
            source: "own, tools/vectors/hpke_messages.py: A.6.1, sequence number 256",
            seq: 256,
            aad: b"Count-256",
            ct: "dbbfc44ae037864e75f136e8b4b4123351d480e6619ae0e0ae437f036f2f8f1ef677686323977a1ccbb4b4f16a",
        },
    ],
};

// One end's context, in mode base.
fn context_of(
    rt: &impl Abort,
    alloc: Global,
    role: Role,
    suite: &Suite,
    shared_secret: &str,
    limit: u64,
) -> Context
    requires { 1 ≤ limit }
{
    let shared_secret = bytes_of(rt, alloc, shared_secret);
    let secrets = schedule(suite, Mode::Base, &shared_secret, INFO, b"", b"");
    Context::new(role, *suite, secrets.expect(rt, "secrets"), limit)
}

fn sequential_of(
    rt: &impl Abort,
    alloc: Global,
    role: Role,
    case: &ContextCase,
    limit: u64,
) -> Sequential
    requires { 1 ≤ limit }
{
    let context = context_of(rt, alloc, role, &case.suite, case.shared_secret, limit);
    Sequential::new(context)
}

// The messages between the published ones have no aad.
fn message_at(case: &ContextCase, seq: u64) -> Option<&MessageCase> {
    case.messages.iter().find(|message| message.seq == seq)
}

// The message opens at the number, by one check.
fn assert_opened<R: Threads + Abort>(
    rt: &R,
    recipient: &mut Sequential,
    aad: &[u8],
    ct: &[u8; 45],
    seq: u64,
)
    requires { length aad.now ≤ 9 }
{
    let mut text = [0u8; 29];
    let mut checks = Checks::new(rt);
    let answer = recipient.unseal_into(aad, ct, &mut text, &mut checks);
    assert_same(rt, answer, Ok(seq), "answer");
    assert_at(rt, text, *TEXT, "sequence number", seq);
    assert_same(rt, checks.count(), 1, "how many checks");
}

// The message at the number is sealed as it was published, where it was, and opens.
fn assert_message<R: Threads + Abort>(
    rt: &R,
    alloc: Global,
    case: &ContextCase,
    seq: u64,
    sender: &mut Sequential,
    recipient: &mut Sequential,
) {
    let message = message_at(case, seq);
    let aad = message.map_or(&b""[..], |message| message.aad);
    assert!(rt; aad.len() <= 9);
    let mut ct = [0u8; 45];
    let answer = sender.seal_into(aad, TEXT, &mut ct);
    assert_same(rt, answer, Ok(seq), "what the sender answers");
    if let Some(message) = message {
        assert_bytes(rt, alloc, &ct, message.ct, message.source, "ct");
    }
    assert_opened(rt, recipient, aad, &ct, seq);
}

fn assert_messages<R: Threads + Abort>(rt: &R, alloc: Global, case: &ContextCase) {
    let mut sender = sequential_of(rt, alloc, Role::Sender, case, u64::MAX);
    let mut recipient = sequential_of(rt, alloc, Role::Recipient, case, u64::MAX);
    for seq in 0..257u64 {
        assert_message(rt, alloc, case, seq, &mut sender, &mut recipient);
    }
    let numbers = (sender.seq(), recipient.seq());
    assert_same(rt, numbers, (257, 257), "sequence numbers");
}

#[test]
fn messages_are_those_of_the_tables(rt: HostRuntime) {
    assert_messages(&rt, rt.alloc(), &A_1_1);
    assert_messages(&rt, rt.alloc(), &A_6_1);
}

// C0 and C1 of RFC 9180, A.1.1.1, and C1 with the last bit of its tag changed.
const C0: &str =
    "f938558b5d72f1a23810b4be2ab4f84331acc02fc97babc53a52ae8218a355a96d8770ac83d07bea87e13c512a";

const C1: &str =
    "af2d7e9ac9ae7e270f46ba1f975be53c09f8d875bdc8535458c2494e8a6eab251c03d0c22a56b8ca42c2063b84";

const X1: &str =
    "af2d7e9ac9ae7e270f46ba1f975be53c09f8d875bdc8535458c2494e8a6eab251c03d0c22a56b8ca42c2063b85";

struct OpeningCase {
    limit: u64,
    aad: &'static [u8; 7],
    ct: &'static str,
    answer: Result<u64, CallFault>,
}

// Own, by hand: the number rises where a message opens, and nowhere else; at LIMIT a tag is still
// checked. Each row is one more call; a new context begins where LIMIT changes.
static OPENINGS: [OpeningCase; 8] = [
    OpeningCase {
        limit: 1,
        aad: b"Count-0",
        ct: C0,
        answer: Ok(0),
    },
    OpeningCase {
        limit: 1,
        aad: b"Count-1",
        ct: C1,
        answer: Err(CallFault::Limit),
    },
    OpeningCase {
        limit: 1,
        aad: b"Count-1",
        ct: X1,
        answer: Err(CallFault::Failed),
    },
    OpeningCase {
        limit: 9,
        aad: b"Count-1",
        ct: C1,
        answer: Err(CallFault::Failed),
    },
    OpeningCase {
        limit: 9,
        aad: b"Count-0",
        ct: C0,
        answer: Ok(0),
    },
    OpeningCase {
        limit: 9,
        aad: b"Count-0",
        ct: C0,
        answer: Err(CallFault::Failed),
    },
    OpeningCase {
        limit: 9,
        aad: b"Count-1",
        ct: X1,
        answer: Err(CallFault::Failed),
    },
    OpeningCase {
        limit: 9,
        aad: b"Count-1",
        ct: C1,
        answer: Ok(1),
    },
];

// The answer to one more call, the text where it opens, and the number.
fn assert_opening<R: Threads + Abort>(rt: &R, recipient: &mut Sequential, case: &OpeningCase) {
    let seq = recipient.seq();
    let at = (case.limit, seq);
    let aad = case.aad;
    let ct: [u8; 45] = array_of(rt, case.ct);
    let mut text = [0xee; 29];
    let mut checks = Checks::new(rt);
    let answer = recipient.unseal_into(aad, &ct, &mut text, &mut checks);
    assert_at(rt, answer, case.answer, "LIMIT and number", at);
    let want = if answer.is_ok() { *TEXT } else { [0xee; 29] };
    assert_at(rt, text, want, "LIMIT and number", at);
    let stays = recipient.seq() == seq;
    assert_same(rt, stays, answer.is_err(), "the recipient stays");
}

#[test]
fn the_number_rises_where_a_message_opens(rt: HostRuntime) {
    let mut recipient = sequential_of(&rt, rt.alloc(), Role::Recipient, &A_1_1, 1);
    for case in &OPENINGS {
        let limit = case.limit;
        if recipient.context().limit() != limit {
            assert!(rt; limit >= 1);
            recipient = sequential_of(&rt, rt.alloc(), Role::Recipient, &A_1_1, limit);
        }
        assert_opening(&rt, &mut recipient, case);
    }
}

struct RefusalCase {
    role: Role,
    aead: Aead,
    sealed: [Result<u64, CallFault>; 2],
    opened: CallFault,
}

// Own, by hand: two seals at LIMIT 1, and an opening of 15 bytes, which are too few for a tag.
const REFUSALS: [RefusalCase; 4] = [
    RefusalCase {
        role: Role::Sender,
        aead: Aead::Aes128,
        sealed: [Ok(0), Err(CallFault::Limit)],
        opened: CallFault::Role,
    },
    RefusalCase {
        role: Role::Sender,
        aead: Aead::ExportOnly,
        sealed: [Err(CallFault::NoCipher), Err(CallFault::NoCipher)],
        opened: CallFault::Role,
    },
    RefusalCase {
        role: Role::Recipient,
        aead: Aead::Aes256,
        sealed: [Err(CallFault::Role), Err(CallFault::Role)],
        opened: CallFault::Failed,
    },
    RefusalCase {
        role: Role::Recipient,
        aead: Aead::ExportOnly,
        sealed: [Err(CallFault::Role), Err(CallFault::Role)],
        opened: CallFault::NoCipher,
    },
];

// A context of the shared secret of A.1.1, for any AEAD.
fn context_for(rt: &impl Abort, alloc: Global, role: Role, aead: Aead, limit: u64) -> Context
    requires { 1 ≤ limit }
{
    let suite = Suite {
        aead,
        ..A_1_1.suite
    };
    context_of(rt, alloc, role, &suite, A_1_1.shared_secret, limit)
}

// The answer to a seal; where it is refused, no byte is written.
fn assert_sealed(rt: &impl Abort, sequential: &mut Sequential, want: Result<u64, CallFault>) {
    let mut ct = [0xee; 45];
    let answer = sequential.seal_into(b"Count-0", TEXT, &mut ct);
    assert_same(rt, answer, want, "answer");
    let untouched = ct == [0xee; 45];
    assert_same(rt, untouched, answer.is_err(), "untouched");
}

fn assert_refusals<R: Threads + Abort>(rt: &R, alloc: Global, case: &RefusalCase) {
    let context = context_for(rt, alloc, case.role, case.aead, 1);
    let mut sequential = Sequential::new(context);
    for want in &case.sealed {
        assert_sealed(rt, &mut sequential, *want);
    }
    let mut checks = Checks::new(rt);
    let answer = sequential.unseal_into(b"", &[0; 15], &mut [], &mut checks);
    assert_same(rt, answer, Err(case.opened), "answer");
    let checked = case.opened == CallFault::Failed;
    assert_same(rt, checks.count(), u64::from(checked), "how many checks");
}

#[test]
fn refusals_come_in_their_order(rt: HostRuntime) {
    for case in &REFUSALS {
        assert_refusals(&rt, rt.alloc(), case);
    }
}

struct ExportCase {
    exporter_context: &'static [u8],
    exported_value: &'static str,
}

// RFC 9180, A.1.1.2, each with L = 32.
static EXPORTS: [ExportCase; 3] = [
    ExportCase {
        exporter_context: b"",
        exported_value: "3853fe2b4035195a573ffc53856e77058e15d9ea064de3e59f4961d0095250ee",
    },
    ExportCase {
        exporter_context: b"\x00",
        exported_value: "2e8f0b54673c7029649d4eb9d5e33bf1872cf76d623ff164ac185da9e88c21a5",
    },
    ExportCase {
        exporter_context: b"TestContext",
        exported_value: "e9e43065102c3836401bed8c3c3c75ae46be1639869391d62c61f1ec7af54931",
    },
];

fn assert_export(rt: &impl Abort, alloc: Global, sequential: &Sequential, case: &ExportCase) {
    let (exporter_context, want) = (case.exporter_context, case.exported_value);
    let source = "RFC 9180, A.1.1.2";
    let mut out = [0u8; 32];
    let answer = sequential.export_into(exporter_context, &mut out);
    assert_bytes(rt, alloc, &out, want, source, "in sequence");
    let mut out = [0u8; 32];
    let again = sequential.context().export_into(exporter_context, &mut out);
    assert_bytes(rt, alloc, &out, want, source, "by the context alone");
    assert_same(rt, (answer, again), (Ok(()), Ok(())), "answers");
}

fn assert_exports(rt: &impl Abort, alloc: Global, role: Role) {
    let sequential = sequential_of(rt, alloc, role, &A_1_1, 1);
    for case in &EXPORTS {
        assert_export(rt, alloc, &sequential, case);
    }
}

#[test]
fn exports_are_those_published_at_both_ends(rt: HostRuntime) {
    assert_exports(&rt, rt.alloc(), Role::Sender);
    assert_exports(&rt, rt.alloc(), Role::Recipient);
}

// The answer to an export of `len` bytes, and whether it left its room as it was.
fn export(
    rt: &impl Abort,
    alloc: Global,
    context: &Context,
    len: usize,
) -> (Result<(), CallFault>, bool) {
    let mut out = vec![in alloc; 0xeeu8; len].expect(rt, "memory");
    let answer = context.export_into(b"", &mut out);
    (answer, out.iter().all(|byte| *byte == 0xee))
}

// RFC 9180, 5.3: at most 255 Nh bytes.
const EXPORT_LIMITS: [(Kdf, usize); 3] = [
    (Kdf::Sha256, 8_160),
    (Kdf::Sha384, 12_240),
    (Kdf::Sha512, 16_320),
];

fn assert_export_limit(rt: &impl Abort, alloc: Global, kdf: Kdf, limit: usize) {
    let suite = Suite {
        kdf,
        aead: Aead::ExportOnly,
        ..A_1_1.suite
    };
    let context = context_of(rt, alloc, Role::Sender, &suite, A_1_1.shared_secret, 1);
    assert_same(rt, context.export_limit(), limit, "export limit");
    let answer = export(rt, alloc, &context, 0);
    assert_at(rt, answer, (Ok(()), true), "0 bytes", kdf);
    let answer = export(rt, alloc, &context, limit);
    assert_at(rt, answer, (Ok(()), false), "255 Nh bytes", kdf);
    let answer = export(rt, alloc, &context, limit.wrapping_add(1));
    let refused = (Err(CallFault::ExportSize), true);
    assert_at(rt, answer, refused, "one byte more", kdf);
}

#[test]
fn an_export_has_255_hashes_at_most(rt: HostRuntime) {
    for (kdf, limit) in EXPORT_LIMITS {
        assert_export_limit(&rt, rt.alloc(), kdf, limit);
    }
}

fn assert_parts(rt: &impl Abort, alloc: Global, case: &ContextCase) {
    let context = sequential_of(rt, alloc, Role::Recipient, case, 7).into_context();
    assert_same(rt, context.role(), Role::Recipient, "role");
    assert_same(rt, *context.suite(), case.suite, "suite");
    assert_same(rt, context.limit(), 7, "limit");
    assert_same(rt, context.cipher().is_some(), true, "a cipher");
    let base_nonce = context.base_nonce().copied();
    let want: [u8; 12] = array_of(rt, case.base_nonce);
    assert_same(rt, base_nonce, Some(want), "base nonce");
}

#[test]
fn a_context_tells_what_it_is_made_of(rt: HostRuntime) {
    assert_parts(&rt, rt.alloc(), &A_1_1);
    assert_parts(&rt, rt.alloc(), &A_6_1);
    let context = context_for(&rt, rt.alloc(), Role::Sender, Aead::ExportOnly, 1);
    let is_none = (context.cipher().is_none(), context.base_nonce().is_none());
    assert_same(&rt, is_none, (true, true), "an export-only context");
}

#[test]
fn a_fault_is_told_by_its_number_and_in_words(rt: HostRuntime) -> Result<(), Fail> {
    let rows = [
        (CallFault::Role, 1, "the other role's call"),
        (CallFault::NoCipher, 2, "the suite is export-only"),
        (CallFault::Limit, 3, "the sequence number is at its limit"),
        (CallFault::Failed, 4, "the tag does not hold"),
        (CallFault::ExportSize, 5, "the export is too long"),
    ];
    for (fault, number, want) in rows {
        assert_same(&rt, u8::from(fault), number, "its number");
        let text = format!(in rt.alloc(); "{fault}")?;
        assert_same(&rt, text.as_str(), want, "text");
    }
    Ok(())
}
