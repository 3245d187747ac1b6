// The command `check`.
use crate::listing::listing;
use crate::unlisted::Unlisted;
use std::alloc::Global;
use tasks::accept;
use wording::{Complaint, first_other, hex_bytes};

const CHECK: &str = "check needs HEX";

// Reads and checks the program that a word of hexadecimal digits says, and lists it.
pub(crate) fn check<'a>(heap: Global, operands: &[&'a str]) -> Result<String, Unlisted<'a>> {
    match operands {
        [] => Err(Complaint::TooFewWords(CHECK).into()),
        [hex] => check_hex(heap, hex),
        [_, surplus, ..] => Err(Complaint::TooManyWords(surplus).into()),
    }
}

fn check_hex<'a>(heap: Global, hex: &'a str) -> Result<String, Unlisted<'a>> {
    let digits = hex.as_bytes();
    if let Some(before) = first_other(digits) {
        return Err(Complaint::NoHexDigit(hex, before).into());
    }
    if digits.len() % 2 == 1 {
        return Err(Complaint::OddDigits(hex).into());
    }
    let bytes = hex_bytes(heap, digits)?;
    let program = accept(heap, bytes.as_slice())?;
    Ok(listing(heap, &program)?)
}
