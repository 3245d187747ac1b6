// What a task is: a start, and a command for every place; and the machine that runs it.
#![tactic(auto)]

mod command;
mod front;
mod grammar;
mod machine;
mod program;
mod reading;
mod running;
mod table;
mod task;
#[cfg(test)]
mod tests;

pub use command::Command;
pub use grammar::accept;
pub use program::{CheckedProgram, ReadProgram};
pub use reading::{ReadError, read};
pub use task::Task;
