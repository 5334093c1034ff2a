//! RFC 9180, A.1.1 and A.2.1: key pairs, encapsulations and shared secrets at both ends; generated keys,
//! and refusals.

ghost use Rattle.std.specs.Prelude.{◌≡◌};

use crate::expected::{assert_key, assert_same, key_of};
use rand_words::Words;
use std::process::Abort;
use x25519_kem::{KeyPair, ZeroDh, decap, encap};

struct Case {
    source: &'static str,
    ikm_e: &'static str,
    sk_em: &'static str,
    pk_em: &'static str,
    ikm_r: &'static str,
    sk_rm: &'static str,
    pk_rm: &'static str,
    shared_secret: &'static str,
}

// enc is pkEm in both.
static CASES: [Case; 2] = [
    Case {
        source: "RFC 9180, A.1.1",
        ikm_e: "7268600d403fce431561aef583ee1613527cff655c1343f29812e66706df3234",
        sk_em: "52c4a758a802cd8b936eceea314432798d5baf2d7e9235dc084ab1b9cfa2f736",
        pk_em: "37fda3567bdbd628e88668c3c8d7e97d1d1253b6d4ea6d44c150f741f1bf4431",
        ikm_r: "6db9df30aa07dd42ee5e8181afdb977e538f5e1fec8a06223f33f7013e525037",
        sk_rm: "4612c550263fc8ad58375df3f557aac531d26850903e55a9f23f21d8534e8ac8",
        pk_rm: "3948cfe0ad1ddb695d780e59077195da6c56506b027329794ab02bca80815c4d",
        shared_secret: "fe0e18c9f024ce43799ae393c7e8fe8fce9d218875e8227b0187c04e7d2ea1fc",
    },
    Case {
        source: "RFC 9180, A.2.1",
        ikm_e: "909a9b35d3dc4713a5e72a4da274b55d3d3821a37e5d099e74a647db583a904b",
        sk_em: "f4ec9b33b792c372c1d2c2063507b684ef925b8c75a42dbcbf57d63ccd381600",
        pk_em: "1afa08d3dec047a643885163f1180476fa7ddb54c6a8029ea33f95796bf2ac4a",
        ikm_r: "1ac01f181fdf9f352797655161c58b75c656a6cc2716dcb66372da835542e1df",
        sk_rm: "8057991eef8f1f1af18f4a9491d16a1ce333f695d4db8e38da75975c4478e0fb",
        pk_rm: "4310ee97d88cc1f088a5576c77ab0cf5c3ac797f3d95139c6c84b5429c59662a",
        shared_secret: "0bbe78490412b4bbea4812666f7916932b828bba79942424abb65244930d69a7",
    },
];

// A source whose words are those of 32 bytes, again and again.
#[derive(Drop)]
struct Given {
    bytes: [u8; 32],
    place: u64,
}

impl Words for Given {
    ghost use Rattle.std.specs.Prelude.{◌*◌, ◌+◌, ◌%◌, get_or};

    ghost place = { λ w. w.place };

    ghost word = { λ w i. let at = 4 * (i % 8) in
        get_or w.bytes at 0 + 256 * get_or w.bytes (at + 1) 0 + 65536 * get_or w.bytes (at + 2) 0
        + 16777216 * get_or w.bytes (at + 3) 0 };

    fn next_word(&mut self) -> u32 {
        let at = 4 * (self.place % 8) as usize;
        self.place += 1;
        let low = self.bytes[at] as u32 + 256 * self.bytes[at + 1] as u32;
        low + 65536 * self.bytes[at + 2] as u32 + 16777216 * self.bytes[at + 3] as u32
    }
}

fn words_of(rt: &impl Abort, digits: &str) -> Given
    ensures { result.place ≡ 0 }
{
    Given {
        bytes: key_of(rt, digits),
        place: 0,
    }
}

fn assert_pair(rt: &impl Abort, pair: &KeyPair, secret: &str, public: &str, source: &str) {
    assert_key(rt, pair.secret(), secret, source);
    assert_key(rt, pair.public(), public, source);
}

fn assert_pairs(rt: &impl Abort, case: &Case) {
    let ephemeral = KeyPair::derive(&key_of(rt, case.ikm_e));
    assert_pair(rt, &ephemeral, case.sk_em, case.pk_em, case.source);
    let recipient = KeyPair::derive(&key_of(rt, case.ikm_r));
    assert_pair(rt, &recipient, case.sk_rm, case.pk_rm, case.source);
    let given = KeyPair::from_secret(&key_of(rt, case.sk_rm));
    assert_pair(rt, &given, case.sk_rm, case.pk_rm, case.source);
}

#[test]
fn key_pairs_are_those_published(rt: HostRuntime) {
    for case in &CASES {
        assert_pairs(&rt, case);
    }
}

// The words are those of skEm, which is clamped before it is used.
fn assert_encapsulated(rt: &impl Abort, case: &Case) {
    let mut words = words_of(rt, case.sk_em);
    let made = encap(&mut words, &key_of(rt, case.pk_rm)).expect(rt, "encap");
    assert_key(rt, &made.enc, case.pk_em, case.source);
    assert_key(rt, &made.shared_secret, case.shared_secret, case.source);
}

fn assert_decapsulated(rt: &impl Abort, case: &Case) {
    let recipient = KeyPair::from_secret(&key_of(rt, case.sk_rm));
    let taken = decap(&key_of(rt, case.pk_em), &recipient).expect(rt, "decap");
    assert_key(rt, &taken, case.shared_secret, case.source);
}

#[test]
fn both_ends_have_the_published_secret(rt: HostRuntime) {
    for case in &CASES {
        assert_encapsulated(&rt, case);
        assert_decapsulated(&rt, case);
    }
}

// The bytes of skEm with the five fixed bits: byte 0 is 0x50 and byte 31 is 0x76. Both bytes by hand.
#[test]
fn a_generated_key_is_clamped(rt: HostRuntime) {
    let mut words = words_of(&rt, CASES[0].sk_em);
    let pair = KeyPair::generate(&mut words);
    assert_pair(
        &rt,
        &pair,
        "50c4a758a802cd8b936eceea314432798d5baf2d7e9235dc084ab1b9cfa2f776",
        CASES[0].pk_em,
        "own, of RFC 9180, A.1.1",
    );
}

#[test]
fn a_zero_output_is_refused(rt: HostRuntime) {
    let mut words = words_of(&rt, CASES[0].sk_em);
    assert_same(
        &rt,
        encap(&mut words, &[0; 32]).err(),
        Some(ZeroDh),
        "encap",
    );
    let recipient = KeyPair::from_secret(&key_of(&rt, CASES[0].sk_rm));
    assert_same(
        &rt,
        decap(&[0; 32], &recipient).err(),
        Some(ZeroDh),
        "decap",
    );
}
