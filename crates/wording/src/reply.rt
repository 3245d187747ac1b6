// What the program answers to a command.
ghost use Rattle.std.specs.Prelude.{◌≡◌, Some};
ghost use Rattle.wording.specs.Replies.{complaint_line, fails, fault_line, reply_lines, said_lines};
ghost use Rattle.wording.specs.declared.reply.Fault.TheVariants.{Refused, Wrong};

use crate::help::HELP;
use domains::{Answer, Refusal};
use std::fmt;

// What is wrong with a line that is no command.
#[derive(Clone, Copy)]
pub enum Complaint<'a> {
    NoCommand,
    UnknownCommand(&'a str),
    // The words that the command needs.
    TooFewWords(&'static str),
    TooManyWords(&'a str),
    NoDomain(&'a str),
    NoNumber(&'a str),
    LargeNumber(&'a str),
    // After how many digits another character stands.
    NoHexDigit(&'a str, usize),
    OddDigits(&'a str),
}

// Why a command is not answered.
#[derive(Clone, Copy)]
pub enum Fault<'a> {
    Refused(Refusal),
    Wrong(Complaint<'a>),
}

impl From<Refusal> for Fault<'_> {
    ghost from_gives = { λ refusal fault. fault ≡ Refused refusal };

    fn from(refused: Refusal) -> Self {
        Fault::Refused(refused)
    }
}

impl<'a> From<Complaint<'a>> for Fault<'a> {
    ghost from_gives = { λ complaint fault. fault ≡ Wrong complaint };

    fn from(wrong: Complaint<'a>) -> Fault<'a> {
        Fault::Wrong(wrong)
    }
}

// What is said to a command with nothing wrong.
#[derive(Clone, Copy)]
pub enum Said {
    Help,
    Euclid(Answer<u64>),
}

// What the program answers to a command.
#[derive(Clone, Copy)]
pub struct Reply<'a> {
    pub outcome: Result<Said, Fault<'a>>,
}

impl Reply<'_> {
    // Whether the program, run on this one command, fails.
    pub fn is_failure(&self) -> bool
        ensures { result ≡ fails self.now }
    {
        self.outcome.is_err()
    }
}

impl fmt::Display for Complaint<'_> {
    ghost output = { λ x. Some (complaint_line x) };

    fn fmt<W: fmt::Write>(&self, f: &mut fmt::Formatter<W>) -> fmt::Result {
        match *self {
            Complaint::NoCommand => write!(f, "error: no command"),
            Complaint::UnknownCommand(word) => write!(f, "error: '{word}' is no command"),
            Complaint::TooFewWords(usage) => write!(f, "error: {usage}"),
            Complaint::TooManyWords(word) => write!(f, "error: '{word}' is one word too many"),
            Complaint::NoDomain(word) => write!(f, "error: '{word}' is no domain"),
            Complaint::NoNumber(word) => write!(f, "error: '{word}' is no number"),
            Complaint::LargeNumber(word) => write!(f, "error: '{word}' is past 64 bits"),
            Complaint::NoHexDigit(word, before) => write!(
                f,
                "error: '{word}' has no hexadecimal digit at {before}"
            ),
            Complaint::OddDigits(word) => write!(f, "error: '{word}' has an odd number of digits"),
        }
    }
}

impl fmt::Display for Fault<'_> {
    ghost output = { λ x. Some (fault_line x) };

    fn fmt<W: fmt::Write>(&self, f: &mut fmt::Formatter<W>) -> fmt::Result {
        match *self {
            Fault::Refused(refusal) => write!(f, "{refusal}"),
            Fault::Wrong(complaint) => write!(f, "{complaint}"),
        }
    }
}

impl fmt::Display for Said {
    ghost output = { said_lines };

    fn fmt<W: fmt::Write>(&self, f: &mut fmt::Formatter<W>) -> fmt::Result {
        match *self {
            Said::Help => write!(f, "{HELP}"),
            Said::Euclid(answer) => write!(f, "{answer}"),
        }
    }
}

impl fmt::Display for Reply<'_> {
    ghost output = { reply_lines };

    fn fmt<W: fmt::Write>(&self, f: &mut fmt::Formatter<W>) -> fmt::Result {
        match self.outcome {
            Ok(said) => write!(f, "{said}"),
            Err(fault) => write!(f, "{fault}"),
        }
    }
}
