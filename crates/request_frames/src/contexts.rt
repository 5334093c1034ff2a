//! What a context line spells, by its form.

ghost use Rattle.std.specs.Prelude.{◌≡◌, ◌+◌, ◌<◌, ◌≤◌, ◌^◌, length, vec_len, sum_by, OnOk};
ghost use Rattle.field_text.specs.Readings.{Gives, Reads};
ghost use Rattle.request_frames.specs.LineParts.{shared_parts as shared_parts_of, key_parts as key_parts_of};
ghost use Rattle.request_frames.specs.Forms.{schedule as schedule_of, share as share_of};
ghost use Rattle.request_frames.specs.Forms.{send as send_of, recv as recv_of};
ghost use Rattle.request_frames.specs.Forms.{context as context_of};

use crate::key_words::read_kdf;
use crate::messages::read_message;
use crate::words;
use crate::words::ContextWord;
use batch_plans::limits::MOST_FIELD;
use batch_plans::{ContextKind, ContextLine};
use field_text::{Pieces, Reason, Stop};
use hkdf_labelled::{Aead, Kdf};
use key_schedule::Role;

// `MODE INFO PSK PSKID LIMIT`, behind what the line says before.
#[tactic(auto, unfolding(crate::specs::Forms::schedule))]
fn schedule(
    kind: ContextKind,
    kdf: Kdf,
    aead: Aead,
    pool: &mut Vec<u8>,
    fields: &mut Pieces,
) -> Result<ContextLine, Stop>
    requires room { vec_len pool.old + sum_by length fields.old < 2 ^ 32 }
    ensures read { Gives (λ line. (line, pool.new.items)) result
        (schedule_of kind kdf aead pool.old.items fields.old) }
    ensures size { OnOk result (vec_len pool.new ≤ vec_len pool.old + sum_by length fields.old) }
{
    let mode = words::mode(fields)?;
    let info = fields.bytes(pool, MOST_FIELD)?;
    let psk = fields.bytes(pool, MOST_FIELD)?;
    let psk_id = fields.bytes(pool, MOST_FIELD)?;
    let limit = fields.number(1, u64::MAX)?;
    Ok(ContextLine {
        kind,
        kdf,
        aead,
        mode,
        info,
        psk,
        psk_id,
        limit,
    })
}

// `ROLE KEM KDF AEAD`
fn shared_parts(fields: &mut Pieces) -> Result<(Role, u16, Kdf, Aead), Reason>
    ensures read { Reads (λ parts. (parts, fields.new)) result (shared_parts_of fields.old) }
    ensures size { OnOk result (sum_by length fields.new ≤ sum_by length fields.old) }
{
    let role = words::role(fields)?;
    let kem = fields.number(0, 65_535)? as u16;
    let kdf = read_kdf(fields)?;
    let aead = words::aead(fields)?;
    Ok((role, kem, kdf, aead))
}

// `share ROLE KEM KDF AEAD SECRET MODE INFO PSK PSKID LIMIT`
#[tactic(auto, unfolding(crate::specs::Forms::share))]
fn share(pool: &mut Vec<u8>, fields: &mut Pieces) -> Result<ContextLine, Stop>
    requires room { vec_len pool.old + sum_by length fields.old < 2 ^ 32 }
    ensures read { Gives (λ line. (line, pool.new.items)) result
        (share_of pool.old.items fields.old) }
    ensures size { OnOk result (vec_len pool.new ≤ vec_len pool.old + sum_by length fields.old) }
{
    fields.exactly(10)?;
    let (role, kem, kdf, aead) = shared_parts(fields)?;
    let secret = fields.bytes(pool, MOST_FIELD)?;
    let kind = ContextKind::Share { role, kem, secret };
    schedule(kind, kdf, aead, pool, fields)
}

// `KDF AEAD KEY`
fn key_parts(fields: &mut Pieces) -> Result<(Kdf, Aead, u32), Reason>
    ensures read { Reads (λ parts. (parts, fields.new)) result (key_parts_of fields.old) }
    ensures size { OnOk result (sum_by length fields.new ≤ sum_by length fields.old) }
{
    let kdf = read_kdf(fields)?;
    let aead = words::aead(fields)?;
    let key = fields.number(0, 65_535)? as u32;
    Ok((kdf, aead, key))
}

// `send KDF AEAD KEY MODE INFO PSK PSKID LIMIT`
#[tactic(auto, unfolding(crate::specs::Forms::send))]
fn send(pool: &mut Vec<u8>, fields: &mut Pieces) -> Result<ContextLine, Stop>
    requires room { vec_len pool.old + sum_by length fields.old < 2 ^ 32 }
    ensures read { Gives (λ line. (line, pool.new.items)) result
        (send_of pool.old.items fields.old) }
    ensures size { OnOk result (vec_len pool.new ≤ vec_len pool.old + sum_by length fields.old) }
{
    fields.exactly(8)?;
    let (kdf, aead, key) = key_parts(fields)?;
    schedule(ContextKind::Send { key }, kdf, aead, pool, fields)
}

// `recv KDF AEAD KEY ENC MODE INFO PSK PSKID LIMIT`
#[tactic(auto, unfolding(crate::specs::Forms::recv))]
fn recv(pool: &mut Vec<u8>, fields: &mut Pieces) -> Result<ContextLine, Stop>
    requires room { vec_len pool.old + sum_by length fields.old < 2 ^ 32 }
    ensures read { Gives (λ line. (line, pool.new.items)) result
        (recv_of pool.old.items fields.old) }
    ensures size { OnOk result (vec_len pool.new ≤ vec_len pool.old + sum_by length fields.old) }
{
    fields.exactly(9)?;
    let (kdf, aead, key) = key_parts(fields)?;
    let enc = read_message(pool, fields, MOST_FIELD)?;
    schedule(ContextKind::Recv { key, enc }, kdf, aead, pool, fields)
}

/// A context line of this word.
pub fn context(
    word: ContextWord,
    pool: &mut Vec<u8>,
    fields: &mut Pieces,
) -> Result<ContextLine, Stop>
    requires room { vec_len pool.old + sum_by length fields.old < 2 ^ 32 }
    ensures read { Gives (λ line. (line, pool.new.items)) result
        (context_of word pool.old.items fields.old) }
    ensures size { OnOk result (vec_len pool.new ≤ vec_len pool.old + sum_by length fields.old) }
{
    match word {
        ContextWord::Share => share(pool, fields),
        ContextWord::Send => send(pool, fields),
        ContextWord::Recv => recv(pool, fields),
    }
}
