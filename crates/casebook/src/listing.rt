// A checked program for people to read.
use std::alloc::{AllocError, Global};
use std::fmt;
use tasks::{CheckedProgram, Command};

// A command with its place.
#[derive(Clone, Copy)]
struct Line {
    place: usize,
    command: Command,
}

impl fmt::Display for Line {
    fn fmt<W: fmt::Write>(&self, f: &mut fmt::Formatter<W>) -> fmt::Result {
        let place = self.place;
        write!(f, "{place} ")?;
        match self.command {
            Command::Set { target, word, next } => write!(f, "SET {target} {word} next {next}"),
            Command::Copy {
                target,
                source,
                next,
            } => write!(f, "COPY {target} {source} next {next}"),
            Command::Add {
                target,
                left,
                right,
                next,
            } => write!(f, "ADD {target} {left} {right} next {next}"),
            Command::Subtract {
                target,
                left,
                right,
                next,
            } => write!(f, "SUB {target} {left} {right} next {next}"),
            Command::Multiply {
                target,
                left,
                right,
                next,
            } => write!(f, "MUL {target} {left} {right} next {next}"),
            Command::Invert {
                target,
                source,
                next,
            } => write!(f, "INV {target} {source} next {next}"),
            Command::Test {
                source,
                zero,
                other,
            } => write!(f, "TEST {source} zero {zero} other {other}"),
            Command::Go { next } => write!(f, "GO {next}"),
            Command::End { code } => write!(f, "END {code}"),
        }
    }
}

// How many commands a program has, and a line for each.
pub(crate) fn listing(heap: Global, program: &CheckedProgram) -> Result<String, AllocError> {
    let commands = program.table().iter().flatten().count();
    let mut lines = String::new(heap);
    for (place, entry) in program.table().iter().enumerate() {
        if let Some(command) = *entry {
            let line = Line { place, command };
            lines.push_str(format!(in heap; "\n  {line}")?.as_str())?;
        }
    }
    format!(in heap; "accepted {commands} commands{lines}")
}
