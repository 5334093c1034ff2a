//! Division steps (D. J. Bernstein and B.-Y. Yang, Fast constant-time gcd computation and modular
//! inversion; NTRU Prime round 3, KeyGen), which make a candidate for an inverse.
//!
//! The steps are those of Euclid on f = x^p - x - 1 and an element g, each with its coefficients
//! turned round, so that each step looks at the constant terms alone. Where f has the higher degree
//! left and g a constant term, the two change places. Then g becomes (f0 g - g0 f) / x, or that
//! times a number other than 0. Beside f and g are their cofactors v and r, of which r is divided by
//! x at each step too: so both pairs take the same step. It starts with v = 0 and r = x^2p. After
//! 2p - 1 steps, whatever the element is, f is a number where the element has an inverse, and the
//! coefficient of the inverse at k is that of v at p + 1 - k, divided by f0.
//!
//! How many steps there are and which places each reads is public. What depends on the element is
//! a mask or a factor, which is made apart and handed to a function that isn't inlined: a compiler
//! that sees both makes a jump of them.
//!
//! No contract says that the steps find an inverse. The caller tests it by a product.

// What a step does before it divides: whether f and g change places. And delta after it, which
// tells how much the degree that f has left is above that of g.
#[derive(Clone, Copy)]
pub(crate) struct Turn {
    pub(crate) exchange: bool,
    pub(crate) delta: i16,
}

impl Turn {
    // The turn of a step, where g has a constant term or none.
    pub(crate) fn of(delta: i16, g_starts: bool) -> Turn {
        let exchange = (delta > 0) & g_starts;
        let sign = 0i16.wrapping_sub(i16::from(exchange));
        Turn {
            exchange,
            delta: (delta ^ sign).wrapping_sub(sign).wrapping_add(1),
        }
    }
}
