//! The product of the field, bit by bit (SP 800-38D, 6.3). Bits are masks here, so that none is
//! branched on.

ghost use Rattle.std.specs.Prelude.{◌≡◌, ◌<◌, ◌*◌};
ghost use Rattle.ghash_core.specs.Field.{by_u, product};

// A bit times an element, by a mask of 128 equal bits.
#[tactic(auto, using(crate::proofs::Linear::mask_facts))]
pub(crate) fn masked(bit: u128, a: u128) -> u128
    requires { bit < 2 }
    ensures { result ≡ bit * a }
{
    0u128.wrapping_sub(bit) & a
}

// u times an element.
#[tactic(auto, unfolding(crate::specs::Field::by_u))]
pub(crate) fn by_u(a: u128) -> u128
    ensures { result ≡ by_u a }
{
    (a >> 1) ^ masked(a & 1, 0xe1 << 120)
}

/// The product of two blocks in GCM's field (SP 800-38D, 6.3). The highest bit is the leftmost.
///
/// This is the standard's algorithm, one bit of `a` at a time. Hashes are taken by tables, as
/// [`GhashKey`](crate::GhashKey) says.
#[tactic(auto, using(crate::proofs::Linear::product_steps))]
pub fn field_mul(a: u128, b: u128) -> u128
    ensures { result ≡ product a b }
{
    let mut sum = 0;
    let mut term = b;
    for i in 0..128u32 {
        sum ^= masked(a >> (127 - i) & 1, term);
        term = by_u(term);
    }
    sum
}
