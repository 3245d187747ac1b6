// The table of a program: its commands by their places.
ghost use Rattle.std.specs.Prelude.{◌≡◌, ◌+◌, ◌-◌, ◌≤◌, List, [], ◌∷◌, ◌++◌, length, replicate, vec_len, Some as Present, None as Absent, Option as Optional, OnOk, MatchResult};
ghost use Rattle.tasks.specs.declared.command.Command.{Command as Ordered};
ghost use Rattle.tasks.specs.declared.table.TheConstants.{MOST_BYTES};

use super::command::Command;
use domains::{Reason, Refusal};
use std::alloc::{AllocError, Global};
use std::marker::Model;
use std::mem::size_of;

// The most bytes that a program may have.
pub(crate) const MOST_BYTES: usize = 1024;

// An entry takes no more than 24 bytes: see the fields of `Command::Set`.
const _: () = prove!(size_of::<Option<Command>>() <= 24);

// The entries of a program, one for every byte: at the first byte of a command that command, at its other bytes none.
#[derive(Drop)]
pub(crate) struct Table {
    entries: Vec<Option<Command>>,
}

impl Model for Table {
    ghost Value = { List (Optional Ordered) };

    ghost view = { λ t. t.entries.items };

    ghost invariant = { λ t. vec_len t.entries ≤ MOST_BYTES };
}

impl Table {
    ghost use Rattle.tasks.specs.CheckLaws.{closed, command_at, lands, last_from, scanned};
    ghost use Rattle.std.specs.Prelude.{◌<◌, not, Ok as Right, Err as Wrong, IfSome};
    ghost use Rattle.std.specs.List.{position};

    pub(crate) fn new(heap: Global) -> Table
        ensures { result ≡ [] }
    {
        Table {
            entries: Vec::new(heap),
        }
    }

    // The entries.
    pub(crate) fn as_slice(&self) -> &[Option<Command>]
        ensures { result.now ≡ self.now }
    {
        self.entries.as_slice()
    }

    // The place after the last entry.
    pub(crate) fn end(&self) -> u32
        ensures value { result ≡ length self.now }
        ensures within { result ≤ MOST_BYTES }
    {
        self.entries.len() as u32
    }

    // Adds a command of some bytes: itself for its first byte, and none for each of the others.
    pub(crate) fn enter(&mut self, command: Command, size: usize) -> Result<(), AllocError>
        requires some { 1 ≤ size }
        requires fits { length self.old + size ≤ MOST_BYTES }
        ensures { OnOk result (self.new ≡ self.old ++ (Present command ∷ replicate (size - 1) Absent)) }
    {
        let end = self.entries.len() + size;
        self.entries.push(Some(command))?;
        self.entries.resize(end, None)?;
        Ok(())
    }

    // The command at a place.
    pub(crate) fn command(&self, place: u32) -> Option<Command>
        ensures { result ≡ command_at self.now place }
    {
        self.entries.get(place as usize).copied().flatten()
    }

    // Every jump goes to a command.
    #[tactic(auto, using(crate::proofs::Checks::scanned_position))]
    pub(crate) fn check_jumps(&self) -> Result<(), Refusal>
        ensures { MatchResult result (λ _. scanned self.now 0 self.now ≡ Right tt) (λ e. scanned self.now 0 self.now ≡ Wrong (e.reason, e.place)) }
    {
        match self.first_stray() {
            Some(place) => Err(Refusal {
                reason: Reason::JumpTarget,
                place: place as u32,
            }),
            None => Ok(()),
        }
    }

    // The first place with a jump to no command.
    fn first_stray(&self) -> Option<usize>
        ensures value { result ≡ position (λ c. not (lands self.now c)) self.now }
        ensures within { IfSome result (λ place. place < MOST_BYTES) }
    {
        self.entries.iter().position(|&entry| !self.lands(entry))
    }

    // Whether where an entry jumps to stands a command.
    fn lands(&self, entry: Option<Command>) -> bool
        ensures { result ≡ lands self.now entry }
    {
        match entry {
            Some(Command::Test { zero, .. }) => self.command(zero).is_some(),
            Some(Command::Go { next }) => self.command(next).is_some(),
            _ => true,
        }
    }

    // The last command is GO or END.
    pub(crate) fn check_end(&self) -> Result<(), Refusal>
        ensures { MatchResult result (λ _. closed self.now ≡ Right tt) (λ e. closed self.now ≡ Wrong (e.reason, e.place)) }
    {
        let place = self.last_place();
        match self.command(place) {
            // Of a table with no command nothing is asked.
            None | Some(Command::Go { .. } | Command::End { .. }) => Ok(()),
            Some(_) => Err(Refusal {
                reason: Reason::LastCommand,
                place,
            }),
        }
    }

    // The last place with a command; 0 where there is none.
    fn last_place(&self) -> u32
        ensures { last_from 0 0 self.now ≡ result }
    {
        self.entries
            .iter()
            .rposition(|entry| entry.is_some())
            .unwrap_or(0) as u32
    }
}
