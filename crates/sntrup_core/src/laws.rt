//! Why decryption is exact, each the contract of a function that does nothing.

ghost use Rattle.sntrup_core.specs.Laws.{SumsAreBounded, DecryptsExactly};

use ring_core::Params;

/// With g and m small and f and r short, each coefficient of g r + 3 f m is at most 8 w in absolute
/// value, as a whole number: 2288 for sntrup761, and 2576 for sntrup857.
pub fn sums_are_bounded()
    ensures { SumsAreBounded }
{}

/// Decrypt(Encrypt(r, h)) = r for every key that [`keygen`](crate::keygen) gives and each short r.
///
/// 3 f h = g makes 3 f c the sum above plus a multiple of q. Since 8 w is at most (q - 1)/2, the
/// centred coefficients are the sum itself, and modulo 3 it is g r.
pub fn decrypts_exactly<S: Params>()
    ensures { DecryptsExactly S.set }
{}
