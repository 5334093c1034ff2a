//! HPKE contexts (RFC 9180, 5.2) that many threads use, each with a pass of its own.
//!
//! A [`SharedContext`] is a context that doesn't change, and its book under a lock, with the seat
//! that stamps its entries. `draw`, `peek` and `commit` take one turn at the lock each: they draw a
//! number, read the next one, or open items. Outside the lock, and waiting for nobody, a text is
//! encrypted at its number, a ciphertext decrypted, a secret exported.
//!
//! A contract sees a pass by the entries that it has seen. The promise for the layer above: a call
//! adds its entries side by side after what others added, each at its number in what was seen, with
//! stamps above all that its lane knew. At `close` the book begins with what each pass saw, and its
//! seat has drawn the stamps of its entries, in order (`specs/Calls.antt`).
//!
//! Nothing here says that a turn comes. Only `new` takes memory.
//!
//! Tests: `serving_tests`.
#![tactic(auto)]

mod contexts;
mod finishing;
mod stamped;

pub use contexts::SharedContext;
