use super::{bytes_of, decapsulated, encapsulated, keys_of};
use crate::expected::assert_at;
use ring_core::{Sntrup761, Sntrup857};
use sha2::{Digest, Sha256};
use sntrup_kem::{KemParams, PublicKey, SecretKey};
use std::alloc::Global;
use std::process::Abort;

// Compares the bytes with 64 hex digits.
fn assert_bytes(rt: &impl Abort, bytes: &[u8; 32], digits: &str, what: &str, of: &str) {
    assert_at(rt, *bytes, bytes_of(rt, digits), what, of);
}

struct KemCase {
    seed: &'static str,
    sha256_pk: &'static str,
    sha256_sk: &'static str,
    sha256_enc: &'static str,
    shared_secret: &'static str,
}

// The C implementation of sntrup761 that OpenSSH 9.2p1 ships, fed with words of ChaCha20: the key
// from stream 0 of the seed, the encapsulation from stream 1, each from word 0. libntruprime
// 20241021 gives the same.
static KEM_761: [KemCase; 4] = [
    KemCase {
        seed: "0000000000000000000000000000000000000000000000000000000000000000",
        sha256_pk: "e9cfcf9d46e1480b876470c04bff9bd008c180b2e95373cc6d4af86ac566589f",
        sha256_sk: "0624f159ae7e906ebc8d827e97e4f554a97dfe262f4c9cbb38343377eea7de01",
        sha256_enc: "52313a15b7ce1cfcb62fefe274aca188ea30729bf63763f19f8b026354b60cbe",
        shared_secret: "e886d16c151bd76b251613e1819a2e4e45586720f1d6e649d0fca84d40eceacf",
    },
    KemCase {
        seed: "0101010101010101010101010101010101010101010101010101010101010101",
        sha256_pk: "07a17a7196060aa669f768350dca508ba3e7d8f4c0dcc465c81c79f3b8d8af4d",
        sha256_sk: "636d64f2db5bb549e78700801035fbe7028d53ca1562a81bcb2c9ba2b156f0c4",
        sha256_enc: "6d31555e98242abd06172833ca80ef35ffe4d12a1adf0d1409f61abd865fc964",
        shared_secret: "25f2c03f076e28252b2a045ed54d59caf6dd230d92151be16f1dbc2b317d78ea",
    },
    KemCase {
        seed: "0202020202020202020202020202020202020202020202020202020202020202",
        sha256_pk: "8387862d8ecbde5042388ea9116b55bb5ff726d5468230b6070322cd996683c5",
        sha256_sk: "9585ffb27b5f20ea8c6fa882e3a1fcbff5ff2152eab0b32b257ad2ff8e2a4fc4",
        sha256_enc: "4c9d5324cdfb4636a20f412352eba0071fa3cd0730330ef91c134c324d6fe475",
        shared_secret: "169fedffdeaa0483377ac8fc72cc4edca3b55d28258d3fbeda0d3f28815ae037",
    },
    KemCase {
        seed: "1f652f8be0a9a27e90c666edfe8f23b48da450235c75eef0a59ba6e15919bce1",
        sha256_pk: "c9d59776cb4f6b28f70fb9566fe3be5a1cb7750f3a4f9968004a9e7dbace05f5",
        sha256_sk: "ac4a459506c4fc6d4dc63cb7067b83e73395ccc191ea2cb9bf9704cb98cadd3a",
        sha256_enc: "2a3d616d33781cdf99befb08ebe1e9f9b44a27290564e1a3b8ceab75c328ae31",
        shared_secret: "61054302ea3e4d26e797c2c3c6cd621d46b81ac6f35696db501288138320a44e",
    },
];

// sntrup857 of libntruprime 20241021, fed with the same words.
static KEM_857: [KemCase; 4] = [
    KemCase {
        seed: "0000000000000000000000000000000000000000000000000000000000000000",
        sha256_pk: "5802250fb3ad00451bcf7333cf40e823d08c67ce687b56f150907e9452429f51",
        sha256_sk: "9b33a3956ee0536794b3a1e4a7b71528df39d0f5a6a0bef852958bd74f71cc2a",
        sha256_enc: "f9220c2c4edd31b35b67e808f91a156e93f5568fca7c4818ea48985c8b09c3d6",
        shared_secret: "bef4a6513a405179b943b4565b72fa6a2ce9f29760c4fd788240e223a845a693",
    },
    KemCase {
        seed: "0101010101010101010101010101010101010101010101010101010101010101",
        sha256_pk: "ae1f805d3c94652e1d52353d4fcd62cf7d2aa5c4fc439ab3b9e241a79b7e49f1",
        sha256_sk: "4c8aa3dc09b177bc1c40510c90d554e8d8d2b82be7c7e21bc1817c769f07a0ce",
        sha256_enc: "5864abee9bb60c0996edd9089de475c0ab778336deeff5a46ef7f06901f568fc",
        shared_secret: "baad0992875dead35e2e5a090d6382cb0d3454c9c7c023fa406d0a8de4f3077d",
    },
    KemCase {
        seed: "0202020202020202020202020202020202020202020202020202020202020202",
        sha256_pk: "6dd7dd9bd8c8ff8395838eb4f12274ee9969c3ddbc3dc314c90a445b03efb131",
        sha256_sk: "b3698c612af6636ad798a007e90367809f86a8ada294b514d453146edd4c3f20",
        sha256_enc: "bb9f9efd353d6f8c37373bb64478a81698db527c1fa18467c75a140682937cca",
        shared_secret: "79cffce5ad8c70f2a6c64cc18d5241f6cb24fb94605440a346e56b27aa8f7881",
    },
    KemCase {
        seed: "1f652f8be0a9a27e90c666edfe8f23b48da450235c75eef0a59ba6e15919bce1",
        sha256_pk: "1cb01140e69b78193746905cb9791f10979ea192f3abf6762cd60d036f25c07b",
        sha256_sk: "b0b650bd4904850152b923594e366c094eacbb6f3a87aae1ecfa1f5aa82affc6",
        sha256_enc: "ee38c74c75cba16b459e601af7d089fa6ada0fbe299b64bc903003a6b20b5de9",
        shared_secret: "be686f83d8f59b45b5b3b9e2e309e000730f423ff2593a58d7961b8b25809de4",
    },
];

fn assert_keys<S: KemParams>(
    rt: &impl Abort,
    case: &KemCase,
    public: &PublicKey<S>,
    secret: &SecretKey<S>,
) {
    let digest = Sha256::digest(public.as_slice());
    assert_bytes(rt, &digest, case.sha256_pk, "public key", case.seed);
    let digest = Sha256::digest(secret.as_slice());
    assert_bytes(rt, &digest, case.sha256_sk, "secret key", case.seed);
}

// Encapsulates for the public key, and decapsulates with the secret key.
fn assert_session<S: KemParams>(
    rt: &impl Abort,
    alloc: Global,
    case: &KemCase,
    public: &PublicKey<S>,
    secret: &SecretKey<S>,
) {
    let (enc, key) = encapsulated(rt, alloc, &bytes_of(rt, case.seed), public);
    let digest = Sha256::digest(enc.as_slice());
    assert_bytes(rt, &digest, case.sha256_enc, "encapsulation", case.seed);
    assert_bytes(rt, &key, case.shared_secret, "session key", case.seed);
    let key = decapsulated(rt, alloc, enc.as_slice(), secret);
    assert_bytes(rt, &key, case.shared_secret, "decapsulated", case.seed);
}

// The secret key is read again from its bytes, and the public key is the one in it, read from its
// bytes as a peer reads it.
fn assert_case<S: KemParams>(rt: &impl Abort, alloc: Global, case: &KemCase) {
    let (public, made) = keys_of::<S>(rt, alloc, &bytes_of(rt, case.seed));
    assert_keys(rt, case, &public, &made);
    let secret = SecretKey::<S>::from_bytes(alloc, made.as_slice()).expect(rt, "a secret key");
    let held = secret.public(alloc).expect(rt, "a public key");
    assert!(rt; held.as_slice() == public.as_slice());
    let read = PublicKey::<S>::from_bytes(alloc, held.as_slice()).expect(rt, "a public key");
    assert_session(rt, alloc, case, &read, &secret);
}

#[test]
fn keys_and_session_keys_are_those_of_other_implementations(rt: HostRuntime) {
    for case in &KEM_761 {
        assert_case::<Sntrup761>(&rt, rt.alloc(), case);
    }
    for case in &KEM_857 {
        assert_case::<Sntrup857>(&rt, rt.alloc(), case);
    }
}
