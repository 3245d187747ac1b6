// Examples of what the crates answer, each proved and run.
#![tactic(auto)]

#[cfg(test)]
mod asked;
#[cfg(test)]
mod over_polynomials;
#[cfg(test)]
mod whole_numbers;
