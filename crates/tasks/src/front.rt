// Taking a command off the front of the bytes of a program.
ghost use Rattle.std.specs.Prelude.{◌≡◌, ◌≤◌, Err as Wrong, MatchResult, nat_lt};
ghost use Rattle.tasks.specs.Commands.{ranged};
ghost use Rattle.tasks.specs.FrontLaws.{Parsed, Taken};
ghost use Rattle.tasks.specs.Reading.{first, shape};
ghost use Rattle.tasks.specs.declared.table.TheConstants.{MOST_BYTES};

use super::command::Command;
use super::table::MOST_BYTES;
use domains::Reason;

// The lengths of the commands 1 to 9, with the command byte.
const LENGTHS: [u8; 9] = [10, 3, 4, 4, 4, 3, 4, 3, 2];

// How many cells there are.
const CELLS: u8 = 64;

// The largest code that a program may end with.
const LAST_CODE: u8 = 239;

// The bytes of a program from a place on.
#[derive(Clone, Copy)]
pub(crate) struct Front<'a> {
    pub(crate) place: u32,
    pub(crate) bytes: &'a [u8],
    ghost near: { place ≤ MOST_BYTES },
}

impl<'a> Front<'a> {
    // Takes the command there off the front, and gives the bytes after it.
    #[tactic(auto, using(crate::proofs::Fronts::refused, crate::proofs::Fronts::within, crate::proofs::Fronts::beside))]
    pub(crate) fn command(self) -> Result<(Command, &'a [u8]), Reason>
        ensures { MatchResult result (λ x. Taken self.entry.place self.entry.bytes.now x.0 x.1.now) (λ e. first self.entry.bytes.now ≡ Wrong e) }
    {
        let (command, rest) = self.parsed()?;
        if in_range(command) {
            Ok((command, rest))
        } else {
            Err(Reason::OperandRange)
        }
    }

    // The same, in range or not.
    fn parsed(self) -> Result<(Command, &'a [u8]), Reason>
        ensures { MatchResult result (λ x. Parsed self.entry.place self.entry.bytes.now x.0 x.1.now) (λ e. shape self.entry.bytes.now ≡ Wrong e) }
    {
        let next = match *self.bytes {
            [number @ 0x01..=0x09, ..] => self.place + u32::from(LENGTHS[usize::from(number) - 1]),
            _ => return Err(Reason::UnknownCommand),
        };
        match *self.bytes {
            [0x01, target, w0, w1, w2, w3, w4, w5, w6, w7, ref rest @ ..] => {
                let word = u64::from_le_bytes([w0, w1, w2, w3, w4, w5, w6, w7]);
                Ok((Command::Set { target, word, next }, rest))
            }
            [0x02, target, source, ref rest @ ..] => Ok((
                Command::Copy {
                    target,
                    source,
                    next,
                },
                rest,
            )),
            [0x03, target, left, right, ref rest @ ..] => Ok((
                Command::Add {
                    target,
                    left,
                    right,
                    next,
                },
                rest,
            )),
            [0x04, target, left, right, ref rest @ ..] => Ok((
                Command::Subtract {
                    target,
                    left,
                    right,
                    next,
                },
                rest,
            )),
            [0x05, target, left, right, ref rest @ ..] => Ok((
                Command::Multiply {
                    target,
                    left,
                    right,
                    next,
                },
                rest,
            )),
            [0x06, target, source, ref rest @ ..] => Ok((
                Command::Invert {
                    target,
                    source,
                    next,
                },
                rest,
            )),
            [0x07, source, z0, z1, ref rest @ ..] => {
                let zero = u32::from(u16::from_le_bytes([z0, z1]));
                Ok((
                    Command::Test {
                        source,
                        zero,
                        other: next,
                    },
                    rest,
                ))
            }
            [0x08, n0, n1, ref rest @ ..] => {
                let next = u32::from(u16::from_le_bytes([n0, n1]));
                Ok((Command::Go { next }, rest))
            }
            [0x09, code, ref rest @ ..] => Ok((Command::End { code }, rest)),
            _ => Err(Reason::MissingOperands),
        }
    }
}

// Whether a command's cells are below 64 and an END code is at most 239.
fn in_range(command: Command) -> bool
    ensures { result ≡ ranged command }
{
    match command {
        Command::Set { target, .. } => is_cell(target),
        Command::Copy { target, source, .. } | Command::Invert { target, source, .. } => is_cell(
            target,
        ) && is_cell(source),
        Command::Add {
            target,
            left,
            right,
            ..
        }
        | Command::Subtract {
            target,
            left,
            right,
            ..
        }
        | Command::Multiply {
            target,
            left,
            right,
            ..
        } => is_cell(target) && is_cell(left) && is_cell(right),
        Command::Test { source, .. } => is_cell(source),
        Command::Go { .. } => true,
        Command::End { code } => code <= LAST_CODE,
    }
}

// Whether a byte numbers a cell.
fn is_cell(byte: u8) -> bool
    ensures { result ≡ nat_lt byte 64 }
{
    byte < CELLS
}
