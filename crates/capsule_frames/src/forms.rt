//! What a capsule line spells, by its form.

ghost use Rattle.std.specs.Prelude.{◌≡◌, ◌+◌, ◌<◌, ◌≤◌, ◌^◌, length, vec_len, sum_by, OnOk};
ghost use Rattle.field_text.specs.Readings.{Gives, Reads};
ghost use Rattle.capsule_frames.specs.LineParts.{key_parts as key_parts_of, suite_parts as suite_parts_of};
ghost use Rattle.capsule_frames.specs.Forms.{ask as ask_of, answer as answer_of};
ghost use Rattle.capsule_frames.specs.Forms.{take_line as take_of, capsule as capsule_of};

use crate::lines::CapsuleLine;
use crate::words;
use crate::words::CapsuleWord;
use batch_plans::limits::MOST_FIELD;
use field_text::{Pieces, Reason, Stop};
use hkdf_labelled::{Aead, Kdf};
use request_frames::{read_kdf, read_message};

/// TEXT.
const MOST_TEXT: usize = 1_048_576;

/// REQ: 7 bytes of header, 1,184 of the longer encapsulation, and a text with its tag.
const MOST_REQUEST: usize = 1_049_783;

/// RESP: 32 bytes of the longer nonce, and a text with its tag.
const MOST_RESPONSE: usize = 1_048_624;

// `KEY ID` of five pieces.
fn key_parts(fields: &mut Pieces) -> Result<(u32, u8), Reason>
    ensures read { Reads (λ parts. (parts, fields.new)) result (key_parts_of fields.old) }
    ensures size { OnOk result (sum_by length fields.new ≤ sum_by length fields.old) }
{
    fields.exactly(5)?;
    let key = fields.number(0, 65_535)? as u32;
    let id = fields.number(0, 255)? as u8;
    Ok((key, id))
}

// `KDF AEAD`
fn suite_parts(fields: &mut Pieces) -> Result<(Kdf, Aead), Reason>
    ensures read { Reads (λ parts. (parts, fields.new)) result (suite_parts_of fields.old) }
    ensures size { OnOk result (sum_by length fields.new ≤ sum_by length fields.old) }
{
    let kdf = read_kdf(fields)?;
    let aead = words::cipher(fields)?;
    Ok((kdf, aead))
}

// `ask KEY ID KDF AEAD TEXT`
#[tactic(auto, unfolding(crate::specs::Forms::ask))]
fn ask(pool: &mut Vec<u8>, fields: &mut Pieces) -> Result<CapsuleLine, Stop>
    requires room { vec_len pool.old + sum_by length fields.old < 2 ^ 32 }
    ensures read { Gives (λ line. (line, pool.new.items)) result
        (ask_of pool.old.items fields.old) }
    ensures size { OnOk result (vec_len pool.new ≤ vec_len pool.old + sum_by length fields.old) }
{
    let (key, id) = key_parts(fields)?;
    let (kdf, aead) = suite_parts(fields)?;
    let text = fields.bytes(pool, MOST_TEXT)?;
    Ok(CapsuleLine::Ask {
        key,
        id,
        kdf,
        aead,
        text,
    })
}

// `answer KEY ID REQ NONCE TEXT`
#[tactic(auto, unfolding(crate::specs::Forms::answer))]
fn answer(pool: &mut Vec<u8>, fields: &mut Pieces) -> Result<CapsuleLine, Stop>
    requires room { vec_len pool.old + sum_by length fields.old < 2 ^ 32 }
    ensures read { Gives (λ line. (line, pool.new.items)) result
        (answer_of pool.old.items fields.old) }
    ensures size { OnOk result (vec_len pool.new ≤ vec_len pool.old + sum_by length fields.old) }
{
    let (key, id) = key_parts(fields)?;
    let request = read_message(pool, fields, MOST_REQUEST)?;
    let nonce = fields.bytes(pool, MOST_FIELD)?;
    let text = fields.bytes(pool, MOST_TEXT)?;
    Ok(CapsuleLine::Answer {
        key,
        id,
        request,
        nonce,
        text,
    })
}

// `take ASK RESP`
#[tactic(auto, unfolding(crate::specs::Forms::take_line))]
fn take(pool: &mut Vec<u8>, fields: &mut Pieces) -> Result<CapsuleLine, Stop>
    requires room { vec_len pool.old + sum_by length fields.old < 2 ^ 32 }
    ensures read { Gives (λ line. (line, pool.new.items)) result
        (take_of pool.old.items fields.old) }
    ensures size { OnOk result (vec_len pool.new ≤ vec_len pool.old + sum_by length fields.old) }
{
    fields.exactly(2)?;
    let ask = fields.number(0, 65_535)? as u32;
    let response = read_message(pool, fields, MOST_RESPONSE)?;
    Ok(CapsuleLine::Take { ask, response })
}

/// A capsule line of this word.
pub fn capsule(
    word: CapsuleWord,
    pool: &mut Vec<u8>,
    fields: &mut Pieces,
) -> Result<CapsuleLine, Stop>
    requires room { vec_len pool.old + sum_by length fields.old < 2 ^ 32 }
    ensures read { Gives (λ line. (line, pool.new.items)) result
        (capsule_of word pool.old.items fields.old) }
    ensures size { OnOk result (vec_len pool.new ≤ vec_len pool.old + sum_by length fields.old) }
{
    match word {
        CapsuleWord::Ask => ask(pool, fields),
        CapsuleWord::Answer => answer(pool, fields),
        CapsuleWord::Take => take(pool, fields),
    }
}
