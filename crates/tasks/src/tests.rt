// A program that is accepted, and one for each refusal.
use super::command::Command;
use super::grammar::accept;
use super::reading::ReadError;
use super::task::Task;
use std::alloc::Global;
use std::test::Fail;

// SET 0 2, TEST 0 17, INV 1 0, END 0.
const ACCEPTED: [u8; 19] = [1, 0, 2, 0, 0, 0, 0, 0, 0, 0, 7, 0, 17, 0, 6, 1, 0, 9, 0];

// Whether a program is refused with a number and a place.
fn refused(heap: Global, bytes: &[u8], number: u8, place: u32) -> bool {
    match accept(heap, bytes) {
        Err(ReadError::Refused(refusal)) => u8::from(refusal.reason) == number
            && refusal.place == place,
        _ => false,
    }
}

#[test]
fn commands_stand_at_their_places(rt: HostRuntime) -> Result<(), Fail> {
    let program = accept(rt.alloc(), &ACCEPTED).ok().ok_or("refused")?;
    assert_eq!(rt;
        program.command(0),
        Command::Set {
            target: 0,
            word: 2,
            next: 10
        }
    );
    assert_eq!(rt;
        program.command(10),
        Command::Test {
            source: 0,
            zero: 17,
            other: 14
        }
    );
    assert_eq!(rt;
        program.command(14),
        Command::Invert {
            target: 1,
            source: 0,
            next: 17
        }
    );
    assert_eq!(rt; program.command(17), Command::End { code: 0 });
    assert_eq!(rt; program.command(11), Command::End { code: 240 });
    assert_eq!(rt; program.command(19), Command::End { code: 240 });
    Ok(())
}

#[test]
fn a_table_has_an_entry_for_every_byte(rt: HostRuntime) -> Result<(), Fail> {
    let program = accept(rt.alloc(), &ACCEPTED).ok().ok_or("refused")?;
    let table = program.table();
    assert_eq!(rt; table.len(), 19);
    assert_eq!(rt; table.get(17), Some(&Some(Command::End { code: 0 })));
    assert_eq!(rt; table.get(18), Some(&None));
    Ok(())
}

#[test]
fn refusals_have_a_number_and_a_place(rt: HostRuntime) {
    assert!(rt; refused(rt.alloc(), &[], 1, 0));
    assert!(rt; refused(rt.alloc(), &[9; 1025], 1, 0));
    assert!(rt; refused(rt.alloc(), &[2, 0, 1, 10, 0], 2, 3));
    assert!(rt; refused(rt.alloc(), &[2, 0, 1, 2, 64], 3, 3));
    assert!(rt; refused(rt.alloc(), &[2, 0, 64, 9, 0], 4, 0));
    assert!(rt; refused(rt.alloc(), &[8, 1, 0], 5, 0));
    assert!(rt; refused(rt.alloc(), &[9, 239, 2, 63, 63], 6, 2));
}
