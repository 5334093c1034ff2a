//! What capsules are for, each law the contract of a function that does no work.

ghost use Rattle.ohttp_capsule.specs.Laws.{WholeExchange, SaltsBind, NamesOne};

use sntrup_kem::KemParams;
use sntrup_kem::laws::both_ends_agree;

/// A whole exchange gives each end the other's text: with each pair of keys that `generate` gives,
/// for each KDF and both AEADs, what was asked is answered with its text, and what was answered is
/// taken with its text.
pub fn a_whole_exchange<S: KemParams>()
    ensures { WholeExchange S.set S.ID }
{
    both_ends_agree::<S>();
}

/// The salt of a response's key is the encapsulation and the nonce, and gives both: so no two
/// exchanges of one KEM that differ in either have a salt in common.
pub fn a_salt_binds_enc_and_nonce()
    ensures { SaltsBind }
{}

/// A header names one suite.
pub fn a_header_names_one_suite()
    ensures { NamesOne }
{}
