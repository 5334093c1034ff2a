//! The set-up of a plan.

ghost use Rattle.std.specs.Prelude.{◌≡◌, length, IfOk};
ghost use Rattle.batch_plans.specs.Within.{IsWithinLimits};
ghost use Rattle.context_table.specs.SetUp.{IsSetUp};
ghost use Rattle.context_books.specs.ContextLines.{AreOfLines, limit_of, export_limits};

use crate::contexts::context_table;
use crate::keys::key_table;
use batch_plans::{ContextReplies, KeyReplies, PlainList, Plan};
use hpke_context::Context;
use ring_core::Multiplier;
use std::alloc::{AllocError as OutOfMemory, Global};

/// The contexts of a plan, each in the slot of its number; none where it was refused.
pub type ContextSlots = PlainList<Option<Context>>;

/// The replies to the key lines and to the context lines of a plan, and the contexts that stand.
#[derive(Drop)]
pub struct Setup {
    pub keys: KeyReplies,
    pub contexts: ContextReplies,
    pub standing: ContextSlots,
}

/// Sets up the keys and the contexts of a plan (RFC 9180, 5.1).
///
/// Key number k draws its words from stream 2k of the plan's seed, context number c from stream
/// 2c + 1; lines of all kinds are counted, and refused ones too. A context is refused by the first
/// of the causes in the order of [`ContextRefusal`](batch_plans::ContextRefusal). A key that is
/// given is not tested further than [`SecretKey::from_bytes`](sntrup_kem::SecretKey::from_bytes)
/// does.
pub fn set_up<M: Multiplier>(alloc: Global, plan: &Plan, mult: &M) -> Result<Setup, OutOfMemory>
    requires { IsWithinLimits plan.now }
    ensures set_up { IfOk result (λ s. IsSetUp plan.now s.keys s.contexts s.standing) }
    ensures key_count { IfOk result (λ s. length s.keys ≡ length plan.now.keys) }
    ensures context_count { IfOk result (λ s. length s.contexts ≡ length plan.now.contexts) }
    ensures lines { IfOk result (λ s. AreOfLines plan.now.contexts s.standing) }
{
    let keys = key_table(alloc, plan, mult)?;
    let contexts = context_table(alloc, plan, &keys, mult)?;
    Ok(Setup {
        keys: keys.replies,
        contexts: PlainList::from_vec(contexts.replies),
        standing: PlainList::from_vec(contexts.slots),
    })
}

fn export_limit(context: &Option<Context>) -> u32
    ensures { result ≡ limit_of context.now }
{
    match context {
        Some(context) => context.export_limit() as u32,
        None => 0,
    }
}

/// For each context the most bytes that one export gives (RFC 9180, 5.3), and 0 where it was
/// refused.
pub fn export_limits(alloc: Global, standing: &[Option<Context>]) -> Result<Vec<u32>, OutOfMemory>
    ensures { IfOk result (λ limits. limits.items ≡ export_limits standing.now) }
{
    let mut limits = Vec::new(alloc);
    'contexts: for context in standing {
        limits.push(export_limit(context))?;
    }
    Ok(limits)
}
