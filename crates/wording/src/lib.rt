// What the program reads and says, as text: decimal numbers, hexadecimal digits, and the lines of its answers.
#![tactic(auto)]

mod help;
mod hex;
mod inversion;
mod number;
mod reply;

pub use help::HELP;
pub use hex::{first_other, hex_bytes};
pub use inversion::invert;
pub use number::{NumberFault, decimal};
pub use reply::{Complaint, Fault, Reply, Said};

#[cfg(test)]
mod tests;
