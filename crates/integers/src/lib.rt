// The domain of whole numbers. A word stands for the number that it is, and the moduli are the squarefree numbers from
// 2 to 2,147,483,647, so that a sum or product of two values fits 64 bits.
#![tactic(auto)]

mod arithmetic;
mod domain;
mod squarefree;
mod value;

pub use domain::Integers;
pub use value::{Integer, IntegerModulus};

#[cfg(test)]
mod tests;
