// The commands that a task is made of.

// A command with its operands and its next places. Cells are numbered from 0 to 63.
#[derive(Clone, Copy, PartialEq, Eq, Debug)]
pub enum Command {
    // Puts the residue of a word into a cell. Fields lie in the order in which they stand: with the word last a command
    // takes 16 bytes and an entry of a table 24, with the word in the middle 24 and 32.
    Set {
        target: u8,
        next: u32,
        word: u64,
    },
    // Copies a cell.
    Copy {
        target: u8,
        source: u8,
        next: u32,
    },
    // Put the sum, the difference and the product of two cells into a cell.
    Add {
        target: u8,
        left: u8,
        right: u8,
        next: u32,
    },
    Subtract {
        target: u8,
        left: u8,
        right: u8,
        next: u32,
    },
    Multiply {
        target: u8,
        left: u8,
        right: u8,
        next: u32,
    },
    // Puts the inverse of a cell into a cell; on 0 the task ends.
    Invert {
        target: u8,
        source: u8,
        next: u32,
    },
    // Goes on at one place if a cell is 0, else at the other.
    Test {
        source: u8,
        zero: u32,
        other: u32,
    },
    // Goes on at a place.
    Go {
        next: u32,
    },
    // Ends the task.
    End {
        code: u8,
    },
}
