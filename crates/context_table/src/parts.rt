//! What a context is made of.

ghost use Rattle.std.specs.Prelude.{◌≡◌, ◌≤◌};
ghost use Rattle.key_schedule.specs.Secrets.{aead_of};

use hkdf_labelled::Suite;
use hpke_context::Context;
use key_schedule::{Role, Secrets};
use std::marker::Model;

/// What a context is made of. A contract sees the context.
///
/// A context has the tables of its key, 9 KiB. Its parts are handed on in its place until it is put
/// where it stays, so that the stack holds few contexts at a time.
#[derive(Drop)]
pub(crate) struct ContextParts {
    role: Role,
    suite: Suite,
    limit: u64,
    secrets: Secrets,
}

impl Model for ContextParts {
    ghost use Rattle.std.specs.Prelude.{◌≡◌, ◌≤◌};
    ghost use Rattle.hpke_context.specs.Contexts.{ContextView};
    ghost use Rattle.key_schedule.specs.Secrets.{aead_of};

    ghost Value = { ContextView };

    ghost view = { λ p. record {
      role = p.role;
      suite = p.suite;
      limit = p.limit;
      secrets = p.secrets;
    } };

    ghost invariant = { λ p. (1 ≤ p.limit) × (aead_of p.secrets.cipher ≡ p.suite.aead) };
}

impl ContextParts {
    /// The parts that [`Context::new`] takes.
    pub(crate) fn new(role: Role, suite: Suite, secrets: Secrets, limit: u64) -> ContextParts
        requires limit { 1 ≤ limit }
        requires suite { aead_of secrets.cipher ≡ suite.aead }
        ensures { result ≡ record { role = role; suite = suite; limit = limit; secrets = secrets } }
    {
        ContextParts {
            role,
            suite,
            limit,
            secrets,
        }
    }

    /// The context.
    pub(crate) fn into_context(self) -> Context
        ensures { result ≡ self }
    {
        Context::new(self.role, self.suite, self.secrets, self.limit)
    }
}
