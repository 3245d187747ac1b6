// The interface of a task.
ghost use Rattle.std.specs.Prelude.{◌≡◌, ℕ, ◌^◌, ◌<◌};
ghost use Rattle.tasks.specs.Commands.{Allowed};
ghost use Rattle.tasks.specs.declared.command.Command.{Command as Ordered};

use super::command::Command;

// A start place, 64 start words, and one command for every 32-bit place.
pub trait Task {
    ghost begin: { Self → ℕ };

    ghost words: { Self → ℕ → ℕ };

    ghost orders: { Self → ℕ → Ordered };

    fn start(&self) -> u32
        ensures { result ≡ begin self.now };

    // The word that a cell starts with.
    fn start_word(&self, cell: u8) -> u64
        ensures { result ≡ words self.now cell };

    fn command(&self, place: u32) -> Command
        ensures { result ≡ orders self.now place };

    // The cells of every command are below 64, and the codes of END at most 240.
    ghost allowed: { (t : Self) (place : ℕ) → Allowed (orders t place) };
}
