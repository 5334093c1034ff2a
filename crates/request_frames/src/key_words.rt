//! The words of key lines, and the field KDF.

ghost use Rattle.std.specs.Prelude.{◌≡◌, ◌≤◌, length, sum_by, OnOk};
ghost use Rattle.field_text.specs.Fields.{next};
ghost use Rattle.field_text.specs.Readings.{Reads};
ghost use Rattle.request_frames.specs.KeyWords.{key_draws, kdf as kdf_field};

use batch_plans::KeySet;
use field_text::{Pieces, Reason, read_number};
use hkdf_labelled::Kdf;

/// The first word of a key line, with the parameter set that it names.
#[derive(Clone, Copy, Debug, PartialEq, Eq)]
pub enum KeyWord {
    Generate(KeySet),
    Secret(KeySet),
    Peer(KeySet),
}

impl KeyWord {
    /// Whether the line stands only where there is a seed.
    pub fn draws(self) -> bool
        ensures { result ≡ key_draws self }
    {
        matches!(self, KeyWord::Generate(_))
    }
}

fn kdf_of(piece: &[u8]) -> Result<Kdf, Reason>
    ensures { Reads (λ kdf. kdf) result (kdf_field piece.now) }
{
    match read_number(piece, 1, 3)? {
        1 => Ok(Kdf::Sha256),
        2 => Ok(Kdf::Sha384),
        _ => Ok(Kdf::Sha512),
    }
}

/// The next piece as KDF: its id in RFC 9180, 7.2.
#[tactic(auto, unfolding(field_text::specs::Fields::next))]
pub fn read_kdf(fields: &mut Pieces) -> Result<Kdf, Reason>
    ensures read { Reads (λ kdf. (kdf, fields.new)) result (next kdf_field fields.old) }
    ensures size { OnOk result (sum_by length fields.new ≤ sum_by length fields.old) }
{
    let piece = fields.piece()?;
    kdf_of(piece)
}
