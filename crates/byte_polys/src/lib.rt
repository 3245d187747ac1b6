// The domain of polynomials over GF(p), for each prime p from 3 to 251. Byte i of a word, modulo p, is the coefficient of
// x^i, and the moduli are the squarefree monic polynomials of degree 1 to 7.
#![tactic(auto)]

mod division;
mod domain;
mod field;
mod inverse;
mod moduli;
mod primes;
mod product;
mod quotients;
mod reading;
mod residues;
mod row;
mod squarefree;
mod steps;
mod value;
mod words;

pub use field::BytePolys;
pub use value::{BytePoly, BytePolyModulus};

#[cfg(test)]
mod tests;
