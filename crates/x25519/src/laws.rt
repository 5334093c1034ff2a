//! What clamping changes, as the contract of a function that does nothing.

ghost use Rattle.x25519.specs.Laws.{ClampedGiveTheSame};

/// A scalar of 32 bytes and the clamped one give the same, with every u-coordinate: whether a secret
/// key is clamped when it is kept makes no difference.
pub fn a_clamped_scalar_gives_the_same()
    ensures { ClampedGiveTheSame }
{}
