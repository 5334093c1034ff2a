//! Whole exchanges against another program and the RFC's own, and refusals.

mod calls;
mod exchanges;
mod refusals;

ghost use Rattle.std.specs.Prelude.{◌≤◌, length};

use self::calls::taken;
use crate::expected::{array_of, assert_same};
use aes_gcm::Checks;
use byte_strings::PlainList;
use hkdf_labelled::{Aead, Kdf, Suite};
use key_schedule::Role;
use ohttp_capsule::firsts::opened_first;
use ohttp_capsule::headers::{header, suite_named};
use ohttp_capsule::setups::context_of;
use ohttp_capsule::{Asked, CapsuleFault};
use std::alloc::Global;
use std::process::Abort;
use std::thread::Threads;

// RFC 9458, appendix A, with DHKEM(X25519, HKDF-SHA256) and the shared secret that
// tools/vectors/ohttp_capsules.py makes of the keys that are published there.
#[test]
fn the_exchange_of_the_rfc_is_read(rt: HostRuntime) {
    let secret: [u8; 32] = array_of(
        &rt,
        "24ff871dfb74349815e21f460d107c4873bfb3e417c148cd9633b7c518bb52e4",
    );
    let request: [u8; 80] = array_of(
        &rt,
        "010020000100014b28f881333e7c164ffc499ad9796f877f4e1051ee6d31bad19dec96c208b4726374e469135906992e1268c594d2a10c695d858c40a026e7965e7d86b83dd440b2c0185204b4d63525",
    );
    assert_header(&rt, &request[..7]);
    assert_question(&rt, rt.alloc(), &secret, &request[39..]);
    assert_response(&rt, rt.alloc(), &secret, &request[7..39]);
}

const SUITE: Suite = Suite {
    kem: 0x0020,
    kdf: Kdf::Sha256,
    aead: Aead::Aes128,
};

fn assert_header(rt: &impl Abort, front: &[u8]) {
    assert_same(rt, &header(1, &SUITE)[..], front, "header");
    assert_same(rt, suite_named(1, 0x0020, front), Some(SUITE), "suite");
}

// What the gateway opens.
fn assert_question<R: Abort + Threads>(rt: &R, alloc: Global, secret: &[u8; 32], sealed: &[u8])
    requires { length sealed.now ≤ 41 }
{
    let gateway = context_of(alloc, Role::Recipient, 1, SUITE, secret).expect(rt, "memory");
    let mut checks = Checks::new(rt);
    let opened = opened_first(alloc, gateway.as_context(), sealed, &mut checks);
    let opened = opened.expect(rt, "a request");
    let want: [u8; 25] = array_of(rt, "00034745540568747470730b6578616d706c652e636f6d012f");
    assert_same(rt, opened.as_slice(), &want[..], "question");
}

// What the client takes from the gateway's response.
fn assert_response<R: Abort + Threads + Sync>(
    rt: &R,
    alloc: Global,
    secret: &[u8; 32],
    enc: &[u8],
) {
    let response: [u8; 35] = array_of(
        rt,
        "c789e7151fcba46158ca84b04464910d86f9013e404feea014e7be4a441f234f857fbd",
    );
    let asked = Asked {
        context: context_of(alloc, Role::Sender, 1, SUITE, secret).expect(rt, "memory"),
        enc: PlainList::from_vec(Vec::from_slice(alloc, enc).expect(rt, "memory")),
    };
    let reply = taken(rt, alloc, &asked, &response).expect(rt, "a response");
    assert_same(rt, reply.as_slice(), &[0x01, 0x40, 0xc8][..], "reply");
}

#[test]
fn a_fault_is_told_by_its_number_and_in_words(rt: HostRuntime) {
    let faults = [
        (CapsuleFault::Short, 1, "the message is too short"),
        (CapsuleFault::Header, 2, "the header is not that of the key"),
        (CapsuleFault::NonceSize, 3, "the nonce has another size"),
        (CapsuleFault::Failed, 4, "the tag does not hold"),
        (CapsuleFault::OutOfMemory, 5, "out of memory"),
    ];
    for (fault, number, text) in faults {
        assert_same(&rt, u8::from(fault), number, "its number");
        let printed = format!(in rt.alloc(); "{fault}").expect(&rt, "memory");
        assert_same(&rt, printed.as_str(), text, "printed");
    }
}
