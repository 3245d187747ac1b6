// Byte programs by their grammar: see specs/Grammar.antt.
ghost use Rattle.std.specs.Prelude.{ℕ, List, Option as Optional, MatchResult};
ghost use Rattle.tasks.specs.CheckLaws.{CheckLaws};
ghost use Rattle.tasks.specs.FrontLaws.{FrontLaws};
ghost use Rattle.tasks.specs.GrammarLaws.{AcceptLaws, GrammarLaws, IsProgram, Rejected};
ghost use Rattle.tasks.specs.ReadLaws.{ReadLaws};
ghost use Rattle.tasks.specs.declared.command.Command.{Command as Ordered};

use super::program::CheckedProgram;
use super::reading::{ReadError, read};
use std::alloc::Global;

// Reads and checks a program: bytes that the grammar has are accepted, and what is refused it does not have.
#[tactic(auto, using(crate::proofs::Grammars::accepted, crate::proofs::Grammars::unread, crate::proofs::Grammars::unchecked))]
pub fn accept(heap: Global, bytes: &[u8]) -> Result<CheckedProgram, ReadError>
    ensures { MatchResult result (λ q. IsProgram bytes.now q.table) (Rejected bytes.now) }
{
    Ok(read(heap, bytes)?.check()?)
}

// Which bytes are read and checked, as what items, and their table; and the steps of it. It does nothing, and nothing
// calls it yet: its contract states the theorems.
pub(crate) fn grammar_laws(bytes: &[u8])
    ensures grammar { GrammarLaws bytes.now }
    ensures reading { ReadLaws bytes.now }
    ensures front { (place : ℕ) → FrontLaws place bytes.now }
    ensures checking { (table : List (Optional Ordered)) → CheckLaws table }
    ensures accepting { AcceptLaws bytes.now }
{}
