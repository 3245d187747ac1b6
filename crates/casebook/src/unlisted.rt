// Why a program is not listed: the command is at fault, or there is no memory.
ghost use Rattle.std.specs.Prelude.{◌≡◌};
ghost use Rattle.casebook.specs.Unlisted.{unlisted_by};
ghost use Rattle.casebook.specs.declared.unlisted.Unlisted.TheVariants.{Fault as AtFault, NoMemory as Memoryless};
ghost use Rattle.wording.specs.declared.reply.Fault.TheVariants.{Wrong};

use std::alloc::AllocError;
use tasks::ReadError;
use wording::{Complaint, Fault};

#[derive(Clone, Copy)]
pub(crate) enum Unlisted<'a> {
    Fault(Fault<'a>),
    NoMemory,
}

impl<'a> From<Complaint<'a>> for Unlisted<'a> {
    ghost from_gives = { λ complaint unlisted. unlisted ≡ AtFault (Wrong complaint) };

    fn from(complaint: Complaint<'a>) -> Unlisted<'a> {
        Unlisted::Fault(complaint.into())
    }
}

impl From<AllocError> for Unlisted<'_> {
    ghost from_gives = { λ _ unlisted. unlisted ≡ Memoryless };

    fn from(_e: AllocError) -> Self {
        Unlisted::NoMemory
    }
}

impl From<ReadError> for Unlisted<'_> {
    ghost from_gives = { λ error unlisted. unlisted ≡ unlisted_by error };

    fn from(error: ReadError) -> Self {
        match error {
            ReadError::Refused(refusal) => Unlisted::Fault(refusal.into()),
            ReadError::NoMemory => Unlisted::NoMemory,
        }
    }
}
