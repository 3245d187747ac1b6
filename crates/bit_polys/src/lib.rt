// The domain of polynomials over GF(2). Bit i of a word is the coefficient of x^i, so addition is exclusive or, and
// multiplication by a power of x is a shift. The moduli are the squarefree polynomials of degree 1 to 31.
#![tactic(auto)]

mod arithmetic;
mod division;
mod domain;
mod product;
mod squarefree;
mod value;

pub use domain::BitPolys;
pub use value::{BitPoly, BitPolyModulus};

#[cfg(test)]
mod tests;
