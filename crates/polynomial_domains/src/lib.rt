// What the domains of polynomials share.
#![tactic(auto)]

mod interface;
mod squarefree;

pub use interface::Polynomials;
pub use squarefree::is_squarefree;
