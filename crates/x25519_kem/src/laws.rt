//! What the KEM is for, as the contract of a function that does nothing.

ghost use Rattle.x25519_kem.specs.Laws.{BothEndsAgree, BothEndsRefuse};

/// What [`encap`](crate::encap) makes for a public key, [`decap`](crate::decap) takes with its secret
/// key to the same shared secret, and the one refuses where the other does, where X25519 agrees for
/// the two secret keys.
pub fn both_ends_agree()
    ensures secret { BothEndsAgree }
    ensures refusal { BothEndsRefuse }
{}
