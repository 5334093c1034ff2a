//! Laws of the field and of the hash, each the contract of a function that does nothing.

ghost use Rattle.std.specs.Prelude.{◌≡◌, bit_xor};
ghost use Rattle.ghash_core.specs.Field.{product, one};
ghost use Rattle.ghash_core.specs.Hash.{sum_after, ghash};

/// The product commutes.
#[tactic(auto, using(crate::proofs::Linear::product_laws))]
pub fn product_commutes(a: u128, b: u128)
    ensures { product a b ≡ product b a }
{}

/// The product associates.
#[tactic(auto, using(crate::proofs::Linear::product_laws))]
pub fn product_associates(a: u128, b: u128, c: u128)
    ensures { product (product a b) c ≡ product a (product b c) }
{}

/// The product distributes over the sum, which is XOR.
#[tactic(auto, using(crate::proofs::Linear::product_laws))]
pub fn product_distributes(a: u128, b: u128, c: u128)
    ensures { product a (bit_xor b c) ≡ bit_xor (product a b) (product a c) }
{}

/// The unit is the block whose leftmost bit alone is 1.
#[tactic(auto, using(crate::proofs::Linear::product_laws))]
pub fn product_has_a_unit(a: u128)
    ensures { product a one ≡ a }
{}

/// GHASH is what the standard's steps compute (SP 800-38D, 6.4): from Y_0 = 0 the last of
/// Y_j = (Y_(j - 1) + X_j) h.
#[tactic(auto, using(crate::proofs::Sums::recursion))]
pub fn hash_is_the_recursion(h: u128, blocks: &[u128])
    ensures { ghash h blocks.now ≡ sum_after h 0 blocks.now }
{}

/// The product that a specification of GCM prints (McGrew and Viega, The Galois/Counter Mode of
/// Operation, appendix B, test case 2: X1 of its ciphertext block and H), by the definition.
#[tactic(auto, using(crate::proofs::Published::products))]
pub fn product_is_that_published()
    ensures { product 0x0388dace60b6a392f328c2b971b2fe78 0x66e94bd4ef8a2c3b884cfa59ca342b2e
        ≡ 0x5e2ec746917062882c85b0685353deb7 }
{}
