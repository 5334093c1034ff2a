//! What a call line spells, by its form. `names` says whether CTX may be `+K`.

ghost use Rattle.std.specs.Prelude.{◌≡◌, ◌+◌, ◌<◌, ◌≤◌, ◌^◌, ◌%◌, [], length, vec_len, sum_by, OnOk, IfOk};
ghost use Rattle.field_text.specs.Readings.{Gives, Reads};
ghost use Rattle.request_frames.specs.Forms.{item as item_of, one_item as one_item_of};
ghost use Rattle.request_frames.specs.Forms.{seal as seal_of, unseal as unseal_of};
ghost use Rattle.request_frames.specs.Forms.{export as export_of, pairs as pairs_of};
ghost use Rattle.request_frames.specs.Forms.{one_and_pairs as one_and_pairs_of};
ghost use Rattle.batch_plans.specs.Limits.{most_opening};
ghost use Rattle.request_frames.specs.Firsts.{first_items, unseal_first};

use crate::names;
use batch_plans::CallLine;
use batch_plans::limits::{MOST_CIPHERTEXT, MOST_FIELD, MOST_OPENING, MOST_PLAINTEXT};
use call_places::Item;
use field_text::{Pieces, Reason, Stop};
use std::alloc::Global;

// `AAD TEXT`
#[tactic(auto, unfolding(crate::specs::Forms::item))]
fn item(pool: &mut Vec<u8>, fields: &mut Pieces, most: usize) -> Result<Item, Stop>
    requires room { vec_len pool.old + sum_by length fields.old < 2 ^ 32 }
    ensures read { Gives (λ item. ((item, pool.new.items), fields.new)) result
        (item_of most pool.old.items fields.old) }
    ensures size { OnOk result (vec_len pool.new + sum_by length fields.new
        ≤ vec_len pool.old + sum_by length fields.old) }
    ensures count { OnOk result (length fields.old ≡ length fields.new + 2) }
{
    let aad = fields.bytes(pool, MOST_FIELD)?;
    let text = fields.bytes(pool, most)?;
    Ok(Item { aad, text })
}

// `CTX AAD TEXT`
#[tactic(auto, unfolding(crate::specs::Forms::one_item))]
fn one_item(
    names: bool,
    pool: &mut Vec<u8>,
    fields: &mut Pieces,
    most: usize,
) -> Result<(u32, Item), Stop>
    requires room { vec_len pool.old + sum_by length fields.old < 2 ^ 32 }
    ensures read { Gives (λ call. (call.0, call.1, pool.new.items)) result
        (one_item_of names most pool.old.items fields.old) }
    ensures size { OnOk result (vec_len pool.new ≤ vec_len pool.old + sum_by length fields.old) }
{
    fields.exactly(3)?;
    let context = names::context(names, fields)?;
    let item = item(pool, fields, most)?;
    Ok((context, item))
}

/// `seal CTX AAD PT`
pub fn seal(names: bool, pool: &mut Vec<u8>, fields: &mut Pieces) -> Result<CallLine, Stop>
    requires room { vec_len pool.old + sum_by length fields.old < 2 ^ 32 }
    ensures read { Gives (λ call. (call, pool.new.items)) result
        (seal_of names pool.old.items fields.old) }
    ensures size { OnOk result (vec_len pool.new ≤ vec_len pool.old + sum_by length fields.old) }
{
    let (context, item) = one_item(names, pool, fields, MOST_PLAINTEXT)?;
    Ok(CallLine::Seal { context, item })
}

/// `unseal CTX AAD CT`
pub fn unseal(names: bool, pool: &mut Vec<u8>, fields: &mut Pieces) -> Result<CallLine, Stop>
    requires room { vec_len pool.old + sum_by length fields.old < 2 ^ 32 }
    ensures read { Gives (λ call. (call, pool.new.items)) result
        (unseal_of names pool.old.items fields.old) }
    ensures size { OnOk result (vec_len pool.new ≤ vec_len pool.old + sum_by length fields.old) }
{
    let (context, item) = one_item(names, pool, fields, MOST_CIPHERTEXT)?;
    Ok(CallLine::Unseal { context, item })
}

/// `export CTX BYTES LEN`
#[tactic(auto, unfolding(crate::specs::Forms::export))]
pub fn export(names: bool, pool: &mut Vec<u8>, fields: &mut Pieces) -> Result<CallLine, Stop>
    requires room { vec_len pool.old + sum_by length fields.old < 2 ^ 32 }
    ensures read { Gives (λ call. (call, pool.new.items)) result
        (export_of names pool.old.items fields.old) }
    ensures size { OnOk result (vec_len pool.new ≤ vec_len pool.old + sum_by length fields.old) }
{
    fields.exactly(3)?;
    let context = names::context(names, fields)?;
    let exporter = fields.bytes(pool, MOST_FIELD)?;
    let size = fields.number(0, 65_535)?;
    Ok(CallLine::Export {
        context,
        exporter,
        size: size as u32,
    })
}

// A piece, and one pair or more.
fn one_and_pairs(fields: &Pieces) -> Result<(), Reason>
    ensures read { Reads (λ _. fields.now) result (one_and_pairs_of fields.now) }
    ensures odd { OnOk result (length fields.now % 2 ≡ 1) }
{
    let count = fields.len();
    if count > 1 && count % 2 == 1 {
        Ok(())
    } else {
        Err(Reason::Fields)
    }
}

// Pairs `AAD CT`, each an item. One item more is kept than an opening may have, or all.
fn pairs(pool: &mut Vec<u8>, items: &mut Vec<Item>, fields: &mut Pieces) -> Result<(), Stop>
    requires room { vec_len pool.old + sum_by length fields.old < 2 ^ 32 }
    requires even { length fields.old % 2 ≡ 0 }
    requires few { vec_len items.old ≤ most_opening + 1 }
    ensures read { Gives (λ _. (items.new.items, pool.new.items)) result
        (first_items (pairs_of pool.old.items items.old.items fields.old)) }
    ensures size { OnOk result (vec_len pool.new ≤ vec_len pool.old + sum_by length fields.old) }
    ensures count { OnOk result (vec_len items.new ≤ vec_len items.old + length fields.old) }
{
    'pairs: while !fields.is_empty() {
        let item = item(pool, fields, MOST_CIPHERTEXT)?;
        if items.len() <= MOST_OPENING {
            items.push(item)?;
        }
    }
    Ok(())
}

/// `unsealall CTX AAD CT`, then any number of further pairs `AAD CT`
///
/// A line may have many more items than an opening may: it is read to its end, and one item more is
/// kept than are allowed, by which it is counted. The room for them is taken once.
#[tactic(auto, unfolding(crate::specs::Firsts::unseal_first))]
pub fn unseal_all(
    alloc: Global,
    names: bool,
    pool: &mut Vec<u8>,
    fields: &mut Pieces,
) -> Result<(u32, Vec<Item>), Stop>
    requires room { vec_len pool.old + sum_by length fields.old < 2 ^ 32 }
    ensures read { Gives (λ call. (call.0, call.1.items, pool.new.items)) result
        (unseal_first names pool.old.items fields.old) }
    ensures size { OnOk result (vec_len pool.new ≤ vec_len pool.old + sum_by length fields.old) }
    ensures count { IfOk result (λ call. vec_len call.1 ≤ length fields.old) }
{
    one_and_pairs(fields)?;
    let context = names::context(names, fields)?;
    let mut items = Vec::with_capacity(alloc, (fields.len() / 2).min(MOST_OPENING + 1))?;
    pairs(pool, &mut items, fields)?;
    Ok((context, items))
}
