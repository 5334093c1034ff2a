//! Contexts that are kept in memory of their own.

ghost use Rattle.std.specs.Prelude.{◌≡◌, IfOk};

use hpke_context::Context;
use std::alloc::{AllocError as OutOfMemory, Global};
use std::marker::Model;

/// A context in memory of its own. A contract sees the context.
///
/// A context has the tables of its key, 9 KiB, which a move copies. This one is moved without them,
/// so that the stack has no room for more than one at a time.
#[derive(Drop)]
pub struct KeptContext {
    context: Box<Context>,
}

impl Model for KeptContext {
    ghost use Rattle.hpke_context.specs.Contexts.{ContextView};

    ghost Value = { ContextView };

    ghost view = { λ k. k.context.value };
}

impl KeptContext {
    // Kept by itself, so that no caller's frame has room for what it moves.
    #[inline(never)]
    pub(crate) fn new(alloc: Global, context: Context) -> Result<KeptContext, OutOfMemory>
        ensures { IfOk result (λ k. k ≡ context) }
    {
        Ok(KeptContext {
            context: Box::new(alloc, context)?,
        })
    }

    /// The context.
    pub fn as_context(&self) -> &Context
        ensures { result.now ≡ self.now }
    {
        &self.context
    }
}
