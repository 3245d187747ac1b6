// Refusals: every way in which a call says no, with its fixed number and the place it speaks of.
ghost use Rattle.std.specs.Prelude.{◌≡◌, Some};
ghost use Rattle.domains.specs.Refusals.{line, number_of, text_of};

use std::fmt;

// Why a call refuses. The numbers are fixed: they go into listings and headers.
#[derive(Clone, Copy, PartialEq, Eq, Debug)]
pub enum Reason {
    // Whoever writes a program.
    ProgramLength = 1,
    UnknownCommand = 2,
    MissingOperands = 3,
    OperandRange = 4,
    JumpTarget = 5,
    LastCommand = 6,
    // Whoever sets up.
    SystemShape = 7,
    UnlistedPrime = 8,
    IllegalModulus = 9,
    RepeatedFactor = 10,
    ZeroLimit = 11,
    // Whoever uses a book.
    NoOpenRow = 12,
    OpenRow = 13,
}

// The number of a reason.
impl From<Reason> for u8 {
    ghost from_gives = { λ reason n. n ≡ number_of reason };

    fn from(reason: Reason) -> u8 {
        reason as u8
    }
}

impl Reason {
    // The reason in words.
    pub fn text(self) -> &'static str
        ensures { result.now ≡ text_of self }
    {
        match self {
            Reason::ProgramLength => "the program has no bytes or more than 1,024",
            Reason::UnknownCommand => "an unknown command byte",
            Reason::MissingOperands => "a command's operands run past the end",
            Reason::OperandRange => "a cell of 64 or more, or an end code over 239",
            Reason::JumpTarget => "a jump goes to no command",
            Reason::LastCommand => "the last command is neither GO nor END",
            Reason::SystemShape =>
                "the equations or unknowns are not 1 to 7, or the matrix has another number of words",
            Reason::UnlistedPrime => "p is not in the list of primes",
            Reason::IllegalModulus => "the modulus is not legal",
            Reason::RepeatedFactor => "the modulus is not squarefree",
            Reason::ZeroLimit => "the limit is 0",
            Reason::NoOpenRow => "there is no open row to work on",
            Reason::OpenRow => "the table has an open row",
        }
    }
}

impl fmt::Display for Reason {
    ghost output = { λ reason. Some (text_of reason) };

    fn fmt<W: fmt::Write>(&self, f: &mut fmt::Formatter<W>) -> fmt::Result {
        f.write_str(self.text())
    }
}

// A refusal: its reason, and the place of the command that it speaks of, 0 where it speaks of none.
#[derive(Clone, Copy, PartialEq, Eq, Debug)]
pub struct Refusal {
    pub reason: Reason,
    pub place: u32,
}

// A refusal that speaks of no command.
impl From<Reason> for Refusal {
    ghost from_gives = { λ reason e. (e.reason ≡ reason) × (e.place ≡ 0) };

    fn from(reason: Reason) -> Refusal {
        Refusal { reason, place: 0 }
    }
}

impl fmt::Display for Refusal {
    ghost output = { λ x. Some (line x) };

    fn fmt<W: fmt::Write>(&self, f: &mut fmt::Formatter<W>) -> fmt::Result {
        let Refusal { reason, place } = *self;
        let number = u8::from(reason);
        write!(f, "refused {number} place {place}: {reason}")
    }
}
