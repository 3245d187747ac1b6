// A checked program as a task.
ghost use Rattle.tasks.specs.CheckLaws.{entry};
ghost use Rattle.tasks.specs.Allowances.{allowed_checked};

use super::command::Command;
use super::program::CheckedProgram;
use super::task::Task;

const FIRST_PLACE: u32 = 0;

const FIRST_WORD: u64 = 0;

// What a program answers at a place that is no command: an END that no program has as its own.
const NO_COMMAND: Command = Command::End { code: 240 };

// It starts at place 0 with all words 0; a place that is no command answers END 240.
impl Task for CheckedProgram {
    ghost begin = { λ _. 0 };

    ghost words = { λ _ _. 0 };

    ghost orders = { λ p place. entry p.table place };

    ghost allowed = { λ p place. allowed_checked p.table p.written place };

    fn start(&self) -> u32 {
        FIRST_PLACE
    }

    fn start_word(&self, _cell: u8) -> u64 {
        FIRST_WORD
    }

    fn command(&self, place: u32) -> Command {
        self.table.command(place).unwrap_or(NO_COMMAND)
    }
}
