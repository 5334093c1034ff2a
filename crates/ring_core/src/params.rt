//! Parameter sets of Streamlined NTRU Prime.

ghost use Rattle.std.specs.Prelude.{◌≡◌, ◌≢◌, ℕ, ℤ, pos, ◌-◌, ◌*◌, ◌/◌, ◌%◌, ◌<◌, ◌≤◌};
ghost use Rattle.ring_core.specs.Inverse.{HasInverses};
ghost use Rattle.ring_core.specs.Sets.{Set};

/// A parameter set (NTRU Prime round 3, parameter sets): the degree p, the modulus q and the weight
/// w of a short polynomial.
///
/// Contracts name the three as one value, `S.set`. The other ghost members are laws that code over
/// any set may rest on. That x^p - x - 1 is irreducible modulo q is none of them: whether an element
/// has an inverse is found out by looking for one.
pub trait Params {
    /// p: how many coefficients an element has
    const P: usize;

    /// q: the odd prime modulus
    const Q: i32;

    /// w: how many coefficients of a short polynomial are not 0
    const W: usize;

    ghost set: { Set };

    ghost P: { ℕ };

    ghost Q: { ℤ };

    ghost W: { ℕ };

    ghost degree_is: { P ≡ set.p };

    ghost modulus_is: { Q ≡ pos set.q };

    ghost weight_is: { W ≡ set.w };

    ghost degree_least: { 2 ≤ set.p };

    // Keeps the sums of a product within 32 bits.
    ghost degree_most: { set.p ≤ 1023 };

    // Keeps 1 apart from 0 modulo q, and from -1.
    ghost modulus_least: { 2 < set.q };

    // Keeps a coefficient within 16 bits, and a product of two within 24.
    ghost modulus_most: { set.q < 8192 };

    ghost modulus_odd: { set.q % 2 ≡ 1 };

    ghost modulus_apart: { set.q % 3 ≢ 0 };

    // Makes each multiple of 3 that is nearest to a coefficient a coefficient itself.
    ghost half_thirds: { (set.q - 1) / 2 % 3 ≡ 0 };

    ghost weight_most: { set.w ≤ set.p };

    // With it a decryption never wraps modulo q.
    ghost weight_bound: { 8 * set.w ≤ (set.q - 1) / 2 };

    ghost inverses: { HasInverses set.q };
}

/// The set sntrup761: p = 761, q = 4591, w = 286.
pub struct Sntrup761;

impl Params for Sntrup761 {
    const P: usize = 761;

    const Q: i32 = 4591;

    const W: usize = 286;

    ghost use Rattle.std.proofs.Common.{arith, refl};
    ghost use Rattle.ring_core.specs.Sets.{sntrup761};
    ghost use Rattle.ring_core.specs.PrimeInverses.{inverses_4591};

    ghost set = { sntrup761 };

    ghost P = { 761 };

    ghost Q = { pos 4591 };

    ghost W = { 286 };

    ghost degree_is = { refl };

    ghost modulus_is = { refl };

    ghost weight_is = { refl };

    ghost degree_least = { Prim.omega arith };

    ghost degree_most = { Prim.omega arith };

    ghost modulus_least = { Prim.omega arith };

    ghost modulus_most = { Prim.omega arith };

    ghost modulus_odd = { refl };

    ghost modulus_apart = { Prim.omega arith };

    ghost half_thirds = { refl };

    ghost weight_most = { Prim.omega arith };

    ghost weight_bound = { Prim.omega arith };

    ghost inverses = { inverses_4591 };
}

/// The set sntrup857: p = 857, q = 5167, w = 322.
pub struct Sntrup857;

impl Params for Sntrup857 {
    const P: usize = 857;

    const Q: i32 = 5167;

    const W: usize = 322;

    ghost use Rattle.std.proofs.Common.{arith, refl};
    ghost use Rattle.ring_core.specs.Sets.{sntrup857};
    ghost use Rattle.ring_core.specs.PrimeInverses.{inverses_5167};

    ghost set = { sntrup857 };

    ghost P = { 857 };

    ghost Q = { pos 5167 };

    ghost W = { 322 };

    ghost degree_is = { refl };

    ghost modulus_is = { refl };

    ghost weight_is = { refl };

    ghost degree_least = { Prim.omega arith };

    ghost degree_most = { Prim.omega arith };

    ghost modulus_least = { Prim.omega arith };

    ghost modulus_most = { Prim.omega arith };

    ghost modulus_odd = { refl };

    ghost modulus_apart = { Prim.omega arith };

    ghost half_thirds = { refl };

    ghost weight_most = { Prim.omega arith };

    ghost weight_bound = { Prim.omega arith };

    ghost inverses = { inverses_5167 };
}
