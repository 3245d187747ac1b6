// Reading a byte program.
ghost use Rattle.std.specs.Prelude.{◌≡◌, ◌+◌, ◌≤◌, length, MatchResult};
ghost use Rattle.tasks.specs.ReadLaws.{Entered, EntryRefusal, ReadRefusal, ReadTable};
ghost use Rattle.tasks.specs.declared.reading.ReadError.TheVariants.{NoMemory as Memoryless, Refused as Refusing};

use super::front::Front;
use super::program::ReadProgram;
use super::table::{MOST_BYTES, Table};
use domains::{Reason, Refusal};
use std::alloc::{AllocError, AllocFailed as Unplaced, Global};

// Why a program is not read, or not accepted.
#[derive(Clone, Copy, PartialEq, Eq, Debug)]
pub enum ReadError {
    Refused(Refusal),
    NoMemory,
}

impl From<Refusal> for ReadError {
    ghost from_gives = { λ e r. r ≡ Refusing e };

    fn from(refusal: Refusal) -> ReadError {
        ReadError::Refused(refusal)
    }
}

impl From<AllocError> for ReadError {
    ghost from_gives = { λ _ r. r ≡ Memoryless };

    fn from(_e: AllocError) -> ReadError {
        ReadError::NoMemory
    }
}

impl<T: Drop> From<Unplaced<T>> for ReadError {
    ghost from_gives = { λ _ r. r ≡ Memoryless };

    fn from(_e: Unplaced<T>) -> ReadError {
        ReadError::NoMemory
    }
}

// Reads a program, or says what is wrong with it: its length, or the first command that is none.
#[tactic(auto, using(crate::specs::Walks::read_steps))]
pub fn read(heap: Global, bytes: &[u8]) -> Result<ReadProgram, ReadError>
    ensures { MatchResult result (λ p. ReadTable bytes.now p.table) (ReadRefusal bytes.now) }
{
    if bytes.is_empty() || bytes.len() > MOST_BYTES {
        return Err(Refusal::from(Reason::ProgramLength).into());
    }
    let mut table = Table::new(heap);
    let mut rest = bytes;
    while !rest.is_empty() {
        rest = read_command(&mut table, rest)?;
    }
    Ok(ReadProgram { table })
}

// Takes a command off the front of the bytes, enters it into the table, and gives the bytes after it.
fn read_command<'a>(table: &mut Table, bytes: &'a [u8]) -> Result<&'a [u8], ReadError>
    requires { length table.old + length bytes.now ≤ MOST_BYTES }
    ensures { MatchResult result (λ rest. Entered table.old bytes.now table.new rest.now) (EntryRefusal table.old bytes.now) }
{
    let place = table.end();
    let (command, rest) = Front { place, bytes }
        .command()
        .map_err(|reason| Refusal { reason, place })?;
    table.enter(command, bytes.len() - rest.len())?;
    Ok(rest)
}
