//! The contexts of both ends.

ghost use Rattle.std.specs.Prelude.{◌≡◌, IfOk};
ghost use Rattle.ohttp_capsule.specs.Requests.{context_of};

use crate::headers::request_info;
use crate::kept::KeptContext;
use hkdf_labelled::Suite;
use hpke_context::Context;
use key_schedule::{Mode, Role, schedule};
use std::alloc::{AllocError as OutOfMemory, Global};

/// The context of one end of an exchange (RFC 9180, 5.1.1), by the KEM's shared secret.
///
/// It is bound to the identifier of the key and the algorithms, and has one number, 0. Kept by itself,
/// so that no caller's frame has room for the tables that it moves.
#[inline(never)]
pub fn context_of(
    alloc: Global,
    role: Role,
    key_id: u8,
    suite: Suite,
    shared_secret: &[u8; 32],
) -> Result<KeptContext, OutOfMemory>
    ensures { IfOk result (λ c. c ≡ context_of role key_id suite shared_secret.now) }
{
    let info = request_info(key_id, &suite);
    match schedule(&suite, Mode::Base, shared_secret, &info, &[], &[]) {
        Ok(secrets) => KeptContext::new(alloc, Context::new(role, suite, secrets, 1)),
        Err(_fault) => unreachable!(),
    }
}
