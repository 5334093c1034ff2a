//! The S-box by a circuit (Boyar and Peralta's of 115 gates), on eight states at once.
//!
//! The plain form is SubBytes (FIPS 197, 5.1.1) of each state, a table of 256 entries read at each
//! byte. Here a lane of register j holds bit j of one byte of each of eight states, that of state i
//! as its bit i, and each gate is one operation on whole registers. So no address and no branch
//! depends on a byte. The circuit inverts in the field as a square of a smaller field: `outer_sums` goes over to
//! it, `inner_sums`, `inner_inverse` and `inner_products` invert there, and `last_sums` comes back,
//! with the affine map. It is equal since a gate acts on each bit alone: one run of the same circuit
//! on numbers of 256 bits, bit v for the byte v, computes the S-box of all bytes, and the check runs
//! it (`circuit_is_s_box` of `proofs/Circuit.antt`).
//!
//! The four gates that add the map's constant are left out. The round keys have it in their place.

ghost use Rattle.std.specs.Prelude.{◌≡◌, ◌<◌, [], ℕ, bit_xor, bit_and};
ghost use Rattle.std.specs.Simd.Lanes.{zip2};
ghost use Rattle.aes_block.specs.Field.{s_box};
ghost use Rattle.aes_block.specs.Sliced.{IsState, gathered, without_constant};
ghost use Rattle.aes_block.specs.Circuit.{outer_sums, inner_sums, inner_inverse, inner_products, last_sums};

use std::simd::prelude::*;

/// Eight states by bits.
pub(crate) type State = [u8x16; 8];

/// The constant of the S-box's affine map (FIPS 197, 5.1.1).
pub(crate) const CONSTANT: u8 = 0x63;

#[tactic(auto, unfolding(crate::specs::Circuit::outer_sums))]
#[inline(always)]
fn outer_sums(q: [u8x16; 8]) -> [u8x16; 22]
    ensures { result ≡ outer_sums [] (zip2 bit_xor) (zip2 bit_and) q }
{
    let [q0, q1, q2, q3, q4, q5, q6, q7] = q;
    let y14 = q4 ^ q2;
    let y13 = q7 ^ q1;
    let y9 = q7 ^ q4;
    let y8 = q7 ^ q2;
    let t0 = q6 ^ q5;
    let y1 = t0 ^ q0;
    let y4 = y1 ^ q4;
    let y12 = y13 ^ y14;
    let y2 = y1 ^ q7;
    let y5 = y1 ^ q1;
    let y3 = y5 ^ y8;
    let t1 = q3 ^ y12;
    let y15 = t1 ^ q2;
    let y20 = t1 ^ q6;
    let y6 = y15 ^ q0;
    let y10 = y15 ^ t0;
    let y11 = y20 ^ y9;
    let y7 = q0 ^ y11;
    let y17 = y10 ^ y11;
    let y19 = y10 ^ y8;
    let y16 = t0 ^ y11;
    let y21 = y13 ^ y16;
    let y18 = q7 ^ y16;
    [
        y1, y2, y3, y4, y5, y6, y7, y8, y9, y10, y11, y12, y13, y14, y15, y16, y17, y18, y19, y20,
        y21, q0,
    ]
}

#[tactic(auto, unfolding(crate::specs::Circuit::inner_sums))]
#[inline(always)]
fn inner_sums(y: [u8x16; 22]) -> [u8x16; 4]
    ensures { result ≡ inner_sums [] (zip2 bit_xor) (zip2 bit_and) y }
{
    let [
        y1,
        y2,
        y3,
        y4,
        y5,
        y6,
        y7,
        y8,
        y9,
        y10,
        y11,
        y12,
        y13,
        y14,
        y15,
        y16,
        y17,
        y18,
        y19,
        y20,
        y21,
        q0,
    ] = y;
    let t2 = y12 & y15;
    let t3 = y3 & y6;
    let t4 = t3 ^ t2;
    let t5 = y4 & q0;
    let t6 = t5 ^ t2;
    let t7 = y13 & y16;
    let t8 = y5 & y1;
    let t9 = t8 ^ t7;
    let t10 = y2 & y7;
    let t11 = t10 ^ t7;
    let t12 = y9 & y11;
    let t13 = y14 & y17;
    let t14 = t13 ^ t12;
    let t15 = y8 & y10;
    let t16 = t15 ^ t12;
    let t17 = t4 ^ t14;
    let t18 = t6 ^ t16;
    let t19 = t9 ^ t14;
    let t20 = t11 ^ t16;
    let t21 = t17 ^ y20;
    let t22 = t18 ^ y19;
    let t23 = t19 ^ y21;
    let t24 = t20 ^ y18;
    [t21, t22, t23, t24]
}

#[tactic(auto, unfolding(crate::specs::Circuit::inner_inverse))]
#[inline(always)]
fn inner_inverse(t: [u8x16; 4]) -> [u8x16; 9]
    ensures { result ≡ inner_inverse [] (zip2 bit_xor) (zip2 bit_and) t }
{
    let [t21, t22, t23, t24] = t;
    let t25 = t21 ^ t22;
    let t26 = t21 & t23;
    let t27 = t24 ^ t26;
    let t28 = t25 & t27;
    let t29 = t28 ^ t22;
    let t30 = t23 ^ t24;
    let t31 = t22 ^ t26;
    let t32 = t31 & t30;
    let t33 = t32 ^ t24;
    let t34 = t23 ^ t33;
    let t35 = t27 ^ t33;
    let t36 = t24 & t35;
    let t37 = t36 ^ t34;
    let t38 = t27 ^ t36;
    let t39 = t29 & t38;
    let t40 = t25 ^ t39;
    let t41 = t40 ^ t37;
    let t42 = t29 ^ t33;
    let t43 = t29 ^ t40;
    let t44 = t33 ^ t37;
    let t45 = t42 ^ t41;
    [t29, t33, t37, t40, t41, t42, t43, t44, t45]
}

#[tactic(auto, unfolding(crate::specs::Circuit::inner_products))]
#[inline(always)]
fn inner_products(y: [u8x16; 22], t: [u8x16; 9]) -> [u8x16; 18]
    ensures { result ≡ inner_products [] (zip2 bit_xor) (zip2 bit_and) y t }
{
    let [
        y1,
        y2,
        y3,
        y4,
        y5,
        y6,
        y7,
        y8,
        y9,
        y10,
        y11,
        y12,
        y13,
        y14,
        y15,
        y16,
        y17,
        _,
        _,
        _,
        _,
        q0,
    ] = y;
    let [t29, t33, t37, t40, t41, t42, t43, t44, t45] = t;
    let z0 = t44 & y15;
    let z1 = t37 & y6;
    let z2 = t33 & q0;
    let z3 = t43 & y16;
    let z4 = t40 & y1;
    let z5 = t29 & y7;
    let z6 = t42 & y11;
    let z7 = t45 & y17;
    let z8 = t41 & y10;
    let z9 = t44 & y12;
    let z10 = t37 & y3;
    let z11 = t33 & y4;
    let z12 = t43 & y13;
    let z13 = t40 & y5;
    let z14 = t29 & y2;
    let z15 = t42 & y9;
    let z16 = t45 & y14;
    let z17 = t41 & y8;
    [
        z0, z1, z2, z3, z4, z5, z6, z7, z8, z9, z10, z11, z12, z13, z14, z15, z16, z17,
    ]
}

#[tactic(auto, unfolding(crate::specs::Circuit::last_sums))]
#[inline(always)]
fn last_sums(z: [u8x16; 18]) -> [u8x16; 8]
    ensures { result ≡ last_sums [] (zip2 bit_xor) (zip2 bit_and) z }
{
    let [
        z0,
        z1,
        z2,
        z3,
        z4,
        z5,
        z6,
        z7,
        z8,
        z9,
        z10,
        z11,
        z12,
        z13,
        z14,
        z15,
        z16,
        z17,
    ] = z;
    let t46 = z15 ^ z16;
    let t47 = z10 ^ z11;
    let t48 = z5 ^ z13;
    let t49 = z9 ^ z10;
    let t50 = z2 ^ z12;
    let t51 = z2 ^ z5;
    let t52 = z7 ^ z8;
    let t53 = z0 ^ z3;
    let t54 = z6 ^ z7;
    let t55 = z16 ^ z17;
    let t56 = z12 ^ t48;
    let t57 = t50 ^ t53;
    let t58 = z4 ^ t46;
    let t59 = z3 ^ t54;
    let t60 = t46 ^ t57;
    let t61 = z14 ^ t57;
    let t62 = t52 ^ t58;
    let t63 = t49 ^ t58;
    let t64 = z4 ^ t59;
    let t65 = t61 ^ t62;
    let t66 = z1 ^ t63;
    let s0 = t59 ^ t63;
    let s6 = t56 ^ t62;
    let s7 = t48 ^ t60;
    let t67 = t64 ^ t65;
    let s3 = t53 ^ t66;
    let s4 = t51 ^ t66;
    let s5 = t47 ^ t65;
    let s1 = t64 ^ s3;
    let s2 = t55 ^ t67;
    [s7, s6, s5, s4, s3, s2, s1, s0]
}

// SubBytes of the eight states, but for the constant.
#[inline(always)]
pub(crate) fn sub_bytes(q: State) -> State
    requires { IsState q }
    ensures long { IsState result }
    ensures bytes { (p i : ℕ) → p < 16 → i < 8
        → gathered result p i ≡ without_constant (s_box (gathered q p i)) }
{
    let y = outer_sums(q);
    let t = inner_inverse(inner_sums(y));
    last_sums(inner_products(y, t))
}
