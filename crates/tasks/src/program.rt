// Byte programs: the two types of them, one only read and one checked.
ghost use Rattle.std.specs.Prelude.{◌≡◌, ◌≤◌, length, Ok as Right, Err as Wrong, MatchResult};
ghost use Rattle.tasks.specs.Programs.{IsChecked, IsRead, Verdict};
ghost use Rattle.tasks.specs.declared.table.TheConstants.{MOST_BYTES};

use super::command::Command;
use super::table::Table;
use domains::Refusal;

// A program that was read. That its table is short is said here too, since what `Table` keeps is not seen from outside.
#[derive(Drop)]
pub struct ReadProgram {
    pub(crate) table: Table,
    ghost short: { length table ≤ MOST_BYTES },
    ghost written: { ∥ IsRead table ∥₁ },
}

// A program that was read and checked: every jump goes to a command, and the last command is GO or END.
#[derive(Drop)]
pub struct CheckedProgram {
    pub(crate) table: Table,
    ghost written: { ∥ IsChecked table ∥₁ },
}

impl ReadProgram {
    // Checks the jumps from the front, then the last command.
    #[tactic(auto, using(crate::proofs::Checks::stray, crate::proofs::Checks::ended, crate::proofs::Checks::checked))]
    pub fn check(self) -> Result<CheckedProgram, Refusal>
        ensures { MatchResult result (λ q. Verdict self.table (Right tt) × (q.table ≡ self.table)) (λ e. Verdict self.table (Wrong (e.reason, e.place))) }
    {
        self.table.check_jumps()?;
        self.table.check_end()?;
        Ok(CheckedProgram { table: self.table })
    }
}

impl CheckedProgram {
    // An entry for every byte of the program: at the first byte of a command that command, at its other bytes none.
    pub fn table(&self) -> &[Option<Command>]
        ensures { result.now ≡ self.now.table }
    {
        self.table.as_slice()
    }
}
