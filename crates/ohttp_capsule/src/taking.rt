//! What the client takes of a response (RFC 9458, 4.4).

ghost use Rattle.std.specs.Prelude.{◌≡◌, ◌≢◌, ◌↔◌, ◌≤◌, length};
ghost use Rattle.hpke_context.specs.Calls.{HasCipher};
ghost use Rattle.ohttp_capsule.specs.Replies.{taken};
ghost use Rattle.ohttp_capsule.specs.Refusals.{IsShortResponse, IsOfNoExchange};

use crate::asking::Asked;
use crate::faults::CapsuleFault;
use crate::responses::{entropy_size, opened, response_key};
use aes_gcm::{Checks, MayCheck};
use byte_strings::ByteList;
use hkdf_labelled::TAG_SIZE;
use std::alloc::Global;
use std::thread::Threads;

/// Takes a response as [`take`] does, for who may check tags.
pub fn take_by(
    permission: MayCheck,
    alloc: Global,
    asked: &Asked,
    response: &[u8],
) -> Result<ByteList, CapsuleFault>
    requires response { length response.now ≤ 1048624 }
    requires cipher { HasCipher asked.now.context }
    requires enc { length asked.now.enc ≤ 1184 }
    ensures taken { result ≢ Err CapsuleFault.OutOfMemory → result ≡ taken asked.now response.now }
    ensures short { (result ≡ Err CapsuleFault.Short) ↔ IsShortResponse asked.now response.now }
    ensures failed { result ≢ Err CapsuleFault.OutOfMemory → ((result ≡ Err CapsuleFault.Failed)
        ↔ IsOfNoExchange asked.now response.now) }
    ensures header { result ≢ Err CapsuleFault.Header }
    ensures nonce_size { result ≢ Err CapsuleFault.NonceSize }
{
    let context = asked.context.as_context();
    let size = entropy_size(context.suite().aead);
    if response.len() < size + TAG_SIZE {
        return Err(CapsuleFault::Short);
    }
    let (nonce, ct) = response.split_at(size);
    let key = response_key(alloc, context, asked.enc.as_slice(), nonce)?;
    opened(alloc, &key.key, &key.nonce, ct, &mut Checks::by(permission))
}

/// Decapsulates a response (RFC 9458, 4.4) to a request that [`ask`](crate::ask) made: gives its
/// text.
///
/// `response` has at most 1,048,624 bytes: a nonce of 32, a text of 2^20 and a tag. The suite of
/// `asked` has a cipher, and its enc at most 1,184 bytes.
///
/// Refused as [`CapsuleFault::Short`] where the nonce or the tag isn't there, and then as
/// [`CapsuleFault::Failed`] where the tag doesn't hold; else only memory can run out. `rt` starts no
/// thread: a count of checked tags is made from it.
pub fn take<R: Threads + Sync>(
    rt: &R,
    alloc: Global,
    asked: &Asked,
    response: &[u8],
) -> Result<ByteList, CapsuleFault>
    requires response { length response.now ≤ 1048624 }
    requires cipher { HasCipher asked.now.context }
    requires enc { length asked.now.enc ≤ 1184 }
    ensures taken { result ≢ Err CapsuleFault.OutOfMemory → result ≡ taken asked.now response.now }
    ensures short { (result ≡ Err CapsuleFault.Short) ↔ IsShortResponse asked.now response.now }
    ensures failed { result ≢ Err CapsuleFault.OutOfMemory → ((result ≡ Err CapsuleFault.Failed)
        ↔ IsOfNoExchange asked.now response.now) }
    ensures header { result ≢ Err CapsuleFault.Header }
    ensures nonce_size { result ≢ Err CapsuleFault.NonceSize }
{
    take_by(MayCheck::on_threads(rt), alloc, asked, response)
}
