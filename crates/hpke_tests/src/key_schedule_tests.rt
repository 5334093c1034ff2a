//! Published vectors: the key schedule, exports and nonces.

use crate::expected::{array_of, assert_at, assert_bytes, assert_same, bytes_of};
use hkdf_labelled::{Aead, Kdf, Suite, labeled_expand_into};
use key_schedule::{CipherSecrets, Mode, PskFault, Secrets, nonce_at, schedule, verify_psk_inputs};
use std::alloc::Global;
use std::process::Abort;
use std::test::Fail;

struct ScheduleCase {
    source: &'static str,
    suite: Suite,
    mode: Mode,
    shared_secret: &'static str,
    info: &'static str,
    psk: &'static str,
    psk_id: &'static str,
    key: &'static str,
    base_nonce: &'static str,
    exporter_secret: &'static str,
    exported_values: [&'static str; 3],
}

static SCHEDULES: [ScheduleCase; 6] = [
    ScheduleCase {
        source: "RFC 9180, A.1.1: DHKEM(X25519, HKDF-SHA256), HKDF-SHA256, AES-128-GCM, base",
        suite: Suite {
            kem: 0x0020,
            kdf: Kdf::Sha256,
            aead: Aead::Aes128,
        },
        mode: Mode::Base,
        shared_secret: "fe0e18c9f024ce43799ae393c7e8fe8fce9d218875e8227b0187c04e7d2ea1fc",
        info: "4f6465206f6e2061204772656369616e2055726e",
        psk: "",
        psk_id: "",
        key: "4531685d41d65f03dc48f6b8302c05b0",
        base_nonce: "56d890e5accaaf011cff4b7d",
        exporter_secret: "45ff1c2e220db587171952c0592d5f5ebe103f1561a2614e38f2ffd47e99e3f8",
        exported_values: [
            "3853fe2b4035195a573ffc53856e77058e15d9ea064de3e59f4961d0095250ee",
            "2e8f0b54673c7029649d4eb9d5e33bf1872cf76d623ff164ac185da9e88c21a5",
            "e9e43065102c3836401bed8c3c3c75ae46be1639869391d62c61f1ec7af54931",
        ],
    },
    ScheduleCase {
        source: "RFC 9180, A.1.2: the same suite, psk",
        suite: Suite {
            kem: 0x0020,
            kdf: Kdf::Sha256,
            aead: Aead::Aes128,
        },
        mode: Mode::Psk,
        shared_secret: "727699f009ffe3c076315019c69648366b69171439bd7dd0807743bde76986cd",
        info: "4f6465206f6e2061204772656369616e2055726e",
        psk: "0247fd33b913760fa1fa51e1892d9f307fbe65eb171e8132c2af18555a738b82",
        psk_id: "456e6e796e20447572696e206172616e204d6f726961",
        key: "15026dba546e3ae05836fc7de5a7bb26",
        base_nonce: "9518635eba129d5ce0914555",
        exporter_secret: "3d76025dbbedc49448ec3f9080a1abab6b06e91c0b11ad23c912f043a0ee7655",
        exported_values: [
            "dff17af354c8b41673567db6259fd6029967b4e1aad13023c2ae5df8f4f43bf6",
            "6a847261d8207fe596befb52928463881ab493da345b10e1dcc645e3b94e2d95",
            "8aff52b45a1be3a734bc7a41e20b4e055ad4c4d22104b0c20285a7c4302401cd",
        ],
    },
    ScheduleCase {
        source: "RFC 9180, A.4.1: DHKEM(P-256, HKDF-SHA256), HKDF-SHA512, AES-128-GCM, base",
        suite: Suite {
            kem: 0x0010,
            kdf: Kdf::Sha512,
            aead: Aead::Aes128,
        },
        mode: Mode::Base,
        shared_secret: "02f584736390fc93f5b4ad039826a3fa08e9911bd1215a3db8e8791ba533cafd",
        info: "4f6465206f6e2061204772656369616e2055726e",
        psk: "",
        psk_id: "",
        key: "090ca96e5f8aa02b69fac360da50ddf9",
        base_nonce: "9c995e621bf9a20c5ca45546",
        exporter_secret: "4a7abb2ac43e6553f129b2c5750a7e82d149a76ed56dc342d7bca61e26d494f4855dff0d0165f27ce57756f7f16baca006539bb8e4518987ba610480ac03efa8",
        exported_values: [
            "a32186b8946f61aeead1c093fe614945f85833b165b28c46bf271abf16b57208",
            "84998b304a0ea2f11809398755f0abd5f9d2c141d1822def79dd15c194803c2a",
            "93fb9411430b2cfa2cf0bed448c46922a5be9beff20e2e621df7e4655852edbc",
        ],
    },
    ScheduleCase {
        source: "RFC 9180, A.6.1: DHKEM(P-521, HKDF-SHA512), HKDF-SHA512, AES-256-GCM, base",
        suite: Suite {
            kem: 0x0012,
            kdf: Kdf::Sha512,
            aead: Aead::Aes256,
        },
        mode: Mode::Base,
        shared_secret: "776ab421302f6eff7d7cb5cb1adaea0cd50872c71c2d63c30c4f1d5e43653336fef33b103c67e7a98add2d3b66e2fda95b5b2a667aa9dac7e59cc1d46d30e818",
        info: "4f6465206f6e2061204772656369616e2055726e",
        psk: "",
        psk_id: "",
        key: "751e346ce8f0ddb2305c8a2a85c70d5cf559c53093656be636b9406d4d7d1b70",
        base_nonce: "55ff7a7d739c69f44b25447b",
        exporter_secret: "e4ff9dfbc732a2b9c75823763c5ccc954a2c0648fc6de80a58581252d0ee3215388a4455e69086b50b87eb28c169a52f42e71de4ca61c920e7bd24c95cc3f992",
        exported_values: [
            "05e2e5bd9f0c30832b80a279ff211cc65eceb0d97001524085d609ead60d0412",
            "fca69744bb537f5b7a1596dbf34eaa8d84bf2e3ee7f1a155d41bd3624aa92b63",
            "f389beaac6fcf6c0d9376e20f97e364f0609a88f1bc76d7328e9104df8477013",
        ],
    },
    ScheduleCase {
        source: "RFC 9180, A.7.1: DHKEM(X25519, HKDF-SHA256), HKDF-SHA256, export-only, base",
        suite: Suite {
            kem: 0x0020,
            kdf: Kdf::Sha256,
            aead: Aead::ExportOnly,
        },
        mode: Mode::Base,
        shared_secret: "e81716ce8f73141d4f25ee9098efc968c91e5b8ce52ffff59d64039e82918b66",
        info: "4f6465206f6e2061204772656369616e2055726e",
        psk: "",
        psk_id: "",
        key: "",
        base_nonce: "",
        exporter_secret: "79dc8e0509cf4a3364ca027e5a0138235281611ca910e435e8ed58167c72f79b",
        exported_values: [
            "7a36221bd56d50fb51ee65edfd98d06a23c4dc87085aa5866cb7087244bd2a36",
            "d5535b87099c6c3ce80dc112a2671c6ec8e811a2f284f948cec6dd1708ee33f0",
            "ffaabc85a776136ca0c378e5d084c9140ab552b78f039d2e8775f26efff4c70e",
        ],
    },
    ScheduleCase {
        source: "own, tools/vectors/hpke_schedule.py under Python 3.11.7: HKDF-SHA384, AES-256-GCM, psk",
        suite: Suite {
            kem: 0x0011,
            kdf: Kdf::Sha384,
            aead: Aead::Aes256,
        },
        mode: Mode::Psk,
        shared_secret: "000102030405060708090a0b0c0d0e0f101112131415161718191a1b1c1d1e1f202122232425262728292a2b2c2d2e2f",
        info: "4f6465206f6e2061204772656369616e2055726e",
        psk: "404142434445464748494a4b4c4d4e4f505152535455565758595a5b5c5d5e5f",
        psk_id: "456e6e796e20447572696e206172616e204d6f726961",
        key: "3a49b486a276e26dcd9d343575cd7282a48745ab380b0935af473b1cb6bdb1ef",
        base_nonce: "c8ee964fe31bd4754eabe7b0",
        exporter_secret: "c7795fdf0c20b4663420f15459d77953bc0fd1c7ee4cd70baa4eb35b6e415ad33b060b7fea3a13f7d8b973479c42a258",
        exported_values: [
            "44fa47764235e3352f9ee31f1a226b776262df331ead8363fdbc7ead4e7a8246",
            "1e2052268c83abe6265c25b43196fed0c39ab163c7310ce0f034c8da500e9622",
            "30cc4288dbfcfd6ce247df9dcb7d4ed33df88dd982d6caf74787ce2c20b598cc",
        ],
    },
];

// The exporter contexts of RFC 9180's appendix A, each with L = 32.
static EXPORTER_CONTEXTS: [&[u8]; 3] = [b"", b"\x00", b"TestContext"];

// key and base_nonce.
fn parts(cipher: &CipherSecrets) -> (&[u8], &[u8]) {
    match cipher {
        CipherSecrets::NoCipher => (&[], &[]),
        CipherSecrets::Aes128 { key, base_nonce } => (key, base_nonce),
        CipherSecrets::Aes256 { key, base_nonce } => (key, base_nonce),
    }
}

// The secrets of a case, whose psk inputs have no fault.
fn secrets_of(rt: &impl Abort, alloc: Global, case: &ScheduleCase) -> Secrets {
    let shared_secret = bytes_of(rt, alloc, case.shared_secret);
    let info = bytes_of(rt, alloc, case.info);
    let psk = bytes_of(rt, alloc, case.psk);
    let psk_id = bytes_of(rt, alloc, case.psk_id);
    let secrets = schedule(&case.suite, case.mode, &shared_secret, &info, &psk, &psk_id);
    secrets.expect(rt, case.source)
}

fn assert_secrets(rt: &impl Abort, alloc: Global, case: &ScheduleCase) {
    let source = case.source;
    let secrets = secrets_of(rt, alloc, case);
    let (key, base_nonce) = parts(&secrets.cipher);
    let exporter = secrets.exporter.as_slice();
    assert_bytes(rt, alloc, key, case.key, source, "key");
    assert_bytes(rt, alloc, base_nonce, case.base_nonce, source, "base_nonce");
    assert_bytes(
        rt,
        alloc,
        exporter,
        case.exporter_secret,
        source,
        "exporter_secret",
    );
}

fn assert_all_secrets(rt: &impl Abort, alloc: Global, cases: &[ScheduleCase]) {
    for case in cases {
        assert_secrets(rt, alloc, case);
    }
}

#[test]
fn secrets_are_those_published(rt: HostRuntime) {
    assert_all_secrets(&rt, rt.alloc(), &SCHEDULES);
}

// Context.Export(exporter_context, 32).
fn export(suite: &Suite, exporter_secret: &[u8], exporter_context: &[u8]) -> [u8; 32] {
    let mut exported = [0; 32];
    labeled_expand_into(
        suite,
        exporter_secret,
        b"sec",
        exporter_context,
        &mut exported,
    );
    exported
}

fn assert_exports(rt: &impl Abort, alloc: Global, case: &ScheduleCase) {
    let exporter_secret = bytes_of(rt, alloc, case.exporter_secret);
    for (context, want) in EXPORTER_CONTEXTS.iter().zip(&case.exported_values) {
        let exported = export(&case.suite, &exporter_secret, context);
        assert_bytes(rt, alloc, &exported, want, case.source, "exported_value");
    }
}

fn assert_all_exports(rt: &impl Abort, alloc: Global, cases: &[ScheduleCase]) {
    for case in cases {
        assert_exports(rt, alloc, case);
    }
}

#[test]
fn exported_values_are_those_published(rt: HostRuntime) {
    assert_all_exports(&rt, rt.alloc(), &SCHEDULES);
}

struct NonceCase {
    source: &'static str,
    base_nonce: &'static str,
    seq: u64,
    nonce: &'static str,
}

static NONCES: [NonceCase; 7] = [
    NonceCase {
        source: "RFC 9180, A.1.1.1, sequence number 0",
        base_nonce: "56d890e5accaaf011cff4b7d",
        seq: 0,
        nonce: "56d890e5accaaf011cff4b7d",
    },
    NonceCase {
        source: "RFC 9180, A.1.1.1, sequence number 1",
        base_nonce: "56d890e5accaaf011cff4b7d",
        seq: 1,
        nonce: "56d890e5accaaf011cff4b7c",
    },
    NonceCase {
        source: "RFC 9180, A.1.1.1, sequence number 2",
        base_nonce: "56d890e5accaaf011cff4b7d",
        seq: 2,
        nonce: "56d890e5accaaf011cff4b7f",
    },
    NonceCase {
        source: "RFC 9180, A.1.1.1, sequence number 4",
        base_nonce: "56d890e5accaaf011cff4b7d",
        seq: 4,
        nonce: "56d890e5accaaf011cff4b79",
    },
    NonceCase {
        source: "RFC 9180, A.1.1.1, sequence number 255",
        base_nonce: "56d890e5accaaf011cff4b7d",
        seq: 255,
        nonce: "56d890e5accaaf011cff4b82",
    },
    NonceCase {
        source: "RFC 9180, A.1.1.1, sequence number 256",
        base_nonce: "56d890e5accaaf011cff4b7d",
        seq: 256,
        nonce: "56d890e5accaaf011cff4a7d",
    },
    NonceCase {
        source: "own, by hand: the last number flips the last 8 bytes",
        base_nonce: "000000000000000000000000",
        seq: u64::MAX,
        nonce: "00000000ffffffffffffffff",
    },
];

#[test]
fn nonces_are_those_published(rt: HostRuntime) {
    for case in &NONCES {
        let base_nonce: [u8; 12] = array_of(&rt, case.base_nonce);
        let nonce = nonce_at(&base_nonce, case.seq);
        assert_bytes(&rt, rt.alloc(), &nonce, case.nonce, case.source, "nonce");
    }
}

#[test]
fn a_fault_is_told_by_its_number_and_in_words(rt: HostRuntime) -> Result<(), Fail> {
    let rows = [
        (
            PskFault::Inconsistent,
            1,
            "one of psk and psk_id is missing",
        ),
        (PskFault::Unneeded, 2, "mode base takes no psk"),
        (PskFault::Missing, 3, "mode psk needs a psk"),
    ];
    for (fault, number, want) in rows {
        assert_same(&rt, u8::from(fault), number, "its number");
        let text = format!(in rt.alloc(); "{fault}")?;
        assert_same(&rt, text.as_str(), want, "text");
    }
    Ok(())
}

struct PskCase {
    mode: Mode,
    psk: &'static [u8],
    psk_id: &'static [u8],
    answer: Result<(), PskFault>,
}

// RFC 9180, 5.1: VerifyPSKInputs(mode, psk, psk_id).
static PSK_INPUTS: [PskCase; 8] = [
    PskCase {
        mode: Mode::Base,
        psk: b"",
        psk_id: b"",
        answer: Ok(()),
    },
    PskCase {
        mode: Mode::Base,
        psk: b"psk",
        psk_id: b"",
        answer: Err(PskFault::Inconsistent),
    },
    PskCase {
        mode: Mode::Base,
        psk: b"",
        psk_id: b"id",
        answer: Err(PskFault::Inconsistent),
    },
    PskCase {
        mode: Mode::Base,
        psk: b"psk",
        psk_id: b"id",
        answer: Err(PskFault::Unneeded),
    },
    PskCase {
        mode: Mode::Psk,
        psk: b"",
        psk_id: b"",
        answer: Err(PskFault::Missing),
    },
    PskCase {
        mode: Mode::Psk,
        psk: b"psk",
        psk_id: b"",
        answer: Err(PskFault::Inconsistent),
    },
    PskCase {
        mode: Mode::Psk,
        psk: b"",
        psk_id: b"id",
        answer: Err(PskFault::Inconsistent),
    },
    PskCase {
        mode: Mode::Psk,
        psk: b"psk",
        psk_id: b"id",
        answer: Ok(()),
    },
];

#[test]
fn a_psk_and_its_id_go_with_mode_psk(rt: HostRuntime) {
    for case in &PSK_INPUTS {
        let inputs = (case.mode, case.psk, case.psk_id);
        let answer = verify_psk_inputs(case.mode, case.psk, case.psk_id);
        assert_at(&rt, answer, case.answer, "psk inputs", inputs);
    }
}
