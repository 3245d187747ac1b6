// The commands and their words.
use crate::domain::{DomainName, byte_polys_over};
use crate::programs::check;
use crate::unlisted::Unlisted;
use bit_polys::BitPolys;
use integers::Integers;
use std::alloc::{AllocError, Global};
use wording::{Complaint, Fault, NumberFault, Reply, Said, decimal, invert};

const EUCLID: &str = "euclid needs DOMAIN WORD MODULUS";

// What is printed for a command: a reply, or the listing of a program.
#[derive(Drop)]
pub(crate) enum Output<'a> {
    Reply(Reply<'a>),
    Listing(String),
}

// Answers the command that the words say.
pub(crate) fn answer<'a>(heap: Global, words: &[&'a str]) -> Result<Output<'a>, AllocError> {
    let outcome = match words {
        ["check", operands @ ..] => match check(heap, operands) {
            Ok(listing) => return Ok(Output::Listing(listing)),
            Err(Unlisted::Fault(fault)) => Err(fault),
            Err(Unlisted::NoMemory) => return Err(AllocError),
        },
        _ => reply(words),
    };
    Ok(Output::Reply(Reply { outcome }))
}

fn reply<'a>(words: &[&'a str]) -> Result<Said, Fault<'a>> {
    match words {
        [] => Err(Complaint::NoCommand.into()),
        ["help"] => Ok(Said::Help),
        ["help", surplus, ..] => Err(Complaint::TooManyWords(surplus).into()),
        ["euclid", operands @ ..] => euclid(operands),
        [other, ..] => Err(Complaint::UnknownCommand(other).into()),
    }
}

// The words are looked at in their order, and then the numbers that they say.
fn euclid<'a>(operands: &[&'a str]) -> Result<Said, Fault<'a>> {
    match operands {
        [domain, word, modulus] => {
            let domain = DomainName::try_from(*domain)?;
            let word = number(word)?;
            let modulus = number(modulus)?;
            let answer = match domain {
                DomainName::Integers => invert(&Integers, word, modulus)?,
                DomainName::BitPolys => invert(&BitPolys, word, modulus)?,
                DomainName::BytePolys(p) => invert(&byte_polys_over(p)?, word, modulus)?,
            };
            Ok(Said::Euclid(answer))
        }
        [_, _, _, surplus, ..] => Err(Complaint::TooManyWords(surplus).into()),
        _ => Err(Complaint::TooFewWords(EUCLID).into()),
    }
}

fn number<'a>(word: &'a str) -> Result<u64, Complaint<'a>> {
    decimal(word.as_bytes()).map_err(|fault| match fault {
        NumberFault::NoDigits => Complaint::NoNumber(word),
        NumberFault::PastLimit => Complaint::LargeNumber(word),
    })
}
