//! Parameter sets of the KEM.

ghost use Rattle.std.specs.Prelude.{◌≡◌, ℕ};
ghost use Rattle.sntrup_kem.specs.Sizes.{public_size, enc_size, secret_size};

use ring_core::{Params, Sntrup761, Sntrup857};

/// A parameter set of the KEM: its number, and the sizes of its byte strings (NTRU Prime round 3,
/// parameter sets).
pub trait KemParams: Params {
    /// the kem_id by which HPKE names the set; of this project's own choice
    const ID: u16;

    /// the bytes of a public key
    const PUBLIC: usize;

    /// the bytes of a secret key
    const SECRET: usize;

    /// the bytes of an encapsulation
    const ENC: usize;

    ghost ID: { ℕ };

    ghost PUBLIC: { ℕ };

    ghost SECRET: { ℕ };

    ghost ENC: { ℕ };

    ghost public_is: { PUBLIC ≡ public_size Self.set };

    ghost enc_is: { ENC ≡ enc_size Self.set };

    ghost secret_is: { SECRET ≡ secret_size Self.set };
}

impl KemParams for Sntrup761 {
    const ID: u16 = 63329;

    const PUBLIC: usize = 1158;

    const SECRET: usize = 1763;

    const ENC: usize = 1039;

    ghost use Rattle.std.proofs.Common.{arith, sym};
    ghost use Rattle.radix_pack.proofs.Lengths.{rq_length_761, rounded_length_761};

    ghost ID = { 63329 };

    ghost PUBLIC = { 1158 };

    ghost SECRET = { 1763 };

    ghost ENC = { 1039 };

    ghost public_is = { sym rq_length_761 };

    ghost enc_is = { Prim.omega (arith, rounded_length_761) };

    ghost secret_is = { Prim.omega (arith, rq_length_761) };
}

impl KemParams for Sntrup857 {
    const ID: u16 = 63575;

    const PUBLIC: usize = 1322;

    const SECRET: usize = 1999;

    const ENC: usize = 1184;

    ghost use Rattle.std.proofs.Common.{arith, sym};
    ghost use Rattle.radix_pack.proofs.Lengths.{rq_length_857, rounded_length_857};

    ghost ID = { 63575 };

    ghost PUBLIC = { 1322 };

    ghost SECRET = { 1999 };

    ghost ENC = { 1184 };

    ghost public_is = { sym rq_length_857 };

    ghost enc_is = { Prim.omega (arith, rounded_length_857) };

    ghost secret_is = { Prim.omega (arith, rq_length_857) };
}
