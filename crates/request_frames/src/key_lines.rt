//! What the lines of the seed and of keys spell, by their forms.

ghost use Rattle.std.specs.Prelude.{◌≡◌, ◌+◌, ◌<◌, ◌≤◌, ◌^◌, length, vec_len, sum_by, OnOk};
ghost use Rattle.field_text.specs.Readings.{Gives};
ghost use Rattle.request_frames.specs.KeyForms.{rand as rand_of, seed_field, key as key_of};
ghost use Rattle.request_frames.specs.KeyForms.{key_bytes as bytes_of};

use crate::key_words::KeyWord;
use batch_plans::limits::MOST_FIELD;
use batch_plans::{KeyLine, KeySource};
use call_places::Span;
use field_text::{Pieces, Reason, Stop, read_bytes};
use std::alloc::Global;

// H64: exactly 32 bytes.
fn seed(alloc: Global, piece: &[u8]) -> Result<[u8; 32], Stop>
    requires { length piece.now < 2 ^ 32 }
    ensures { Gives (λ seed. seed) result (seed_field piece.now) }
{
    let mut bytes = Vec::new(alloc);
    read_bytes(&mut bytes, piece, 32)?;
    if bytes.len() != 32 {
        return Err(Stop::Bad(Reason::Size));
    }
    let mut seed = [0; 32];
    seed.copy_from_slice(bytes.as_slice());
    Ok(seed)
}

/// What is behind the word of `rand H64`: the seed. Bytes of another length are refused as `Size`.
#[tactic(auto, unfolding(crate::specs::KeyForms::rand, field_text::specs::Fields::next))]
pub fn read_rand(alloc: Global, fields: &mut Pieces) -> Result<[u8; 32], Stop>
    requires room { sum_by length fields.old < 2 ^ 32 }
    ensures read { Gives (λ seed. seed) result (rand_of fields.old) }
{
    fields.exactly(1)?;
    let piece = fields.piece()?;
    seed(alloc, piece)
}

// HEX alone.
#[tactic(auto, unfolding(crate::specs::KeyForms::key_bytes))]
fn key_bytes(pool: &mut Vec<u8>, fields: &mut Pieces) -> Result<Span, Stop>
    requires room { vec_len pool.old + sum_by length fields.old < 2 ^ 32 }
    ensures read { Gives (λ bytes. (bytes, pool.new.items)) result
        (bytes_of pool.old.items fields.old) }
    ensures size { OnOk result (vec_len pool.new ≤ vec_len pool.old + sum_by length fields.old) }
{
    fields.exactly(1)?;
    fields.bytes(pool, MOST_FIELD)
}

/// What is behind this word of a key line. The bytes of a key go to the end of `pool`.
pub fn read_key(word: KeyWord, pool: &mut Vec<u8>, fields: &mut Pieces) -> Result<KeyLine, Stop>
    requires room { vec_len pool.old + sum_by length fields.old < 2 ^ 32 }
    ensures read { Gives (λ key. (key, pool.new.items)) result
        (key_of word pool.old.items fields.old) }
    ensures size { OnOk result (vec_len pool.new ≤ vec_len pool.old + sum_by length fields.old) }
{
    match word {
        KeyWord::Generate(set) => {
            fields.exactly(0)?;
            Ok(KeyLine::of(set, KeySource::Generate))
        }
        KeyWord::Secret(set) => {
            let bytes = key_bytes(pool, fields)?;
            Ok(KeyLine::of(set, KeySource::Secret(bytes)))
        }
        KeyWord::Peer(set) => {
            let bytes = key_bytes(pool, fields)?;
            Ok(KeyLine::of(set, KeySource::Peer(bytes)))
        }
    }
}
