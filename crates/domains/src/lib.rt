// What a domain is, and what is done over any domain.
#![tactic(auto)]

mod chain;
mod domain;
mod gcd;
mod opening;
mod refusal;
mod split;

pub use domain::Domain;
pub use gcd::{Answer, Factor, euclid};
pub use opening::{invert_word, modulus_or_refusal};
pub use refusal::{Reason, Refusal};
pub use split::{Halves, halve};
