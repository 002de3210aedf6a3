use crate::calls::{book, correct, withdraw};
use crate::houses::{of_each_room, seven_closed};
use fault::place::Place;
use fault::reason::Reason;
use fault::refusal::Fault;
use heat_account::Account;
use heat_account::answer::Answer;
use heat_account::call::Call;
use sharing::remainders::Remainders;
use std::process::Abort;
use std::test::Fail;

#[test]
fn changes_while_correcting(rt: HostRuntime) -> Result<(), Fail> {
    let mut account = seven_closed()?;
    account.read(1, 9)?;
    account.perform(correct(2, 200))?;
    let changes = account.changes()?;
    assert_eq!(rt; account.change(2), Ok(-15));
    let unknown = Fault::new(Reason::UnknownRoom, Place::Room(9));
    assert_eq!(rt; account.change(9), Err(unknown));
    // What was told outlives the correction.
    account.perform(book(7, 1))?;
    assert!(rt; changes.as_slice() == [1, -15, 14].as_slice());
    Ok(())
}

#[test]
fn nothing_is_being_corrected(rt: HostRuntime) -> Result<(), Fail> {
    let account = seven_closed()?;
    let elsewhere = Fault::new(Reason::SlipMismatch, Place::Nowhere);
    assert_eq!(rt; account.changes().err(), Some(elsewhere));
    for room in [2, 9] {
        let mismatch = Fault::new(Reason::SlipMismatch, Place::Room(room));
        assert_eq!(rt; account.change(room), Err(mismatch));
    }
    Ok(())
}

// What the first three rooms' bills change by, told while a correction is open that is then ended.
fn changes_of(
    rt: &impl Abort,
    account: &mut Account<Remainders>,
    room: u32,
    reading: u32,
    end: Call,
) -> Result<[i64; 3], Fault> {
    let begun = account.perform(correct(room, reading));
    assert!(rt; matches!(begun, Ok(Answer::Corrected { house: 7, .. })));
    let changes = of_each_room(|room| account.change(room))?;
    assert_eq!(rt; account.perform(end), Ok(Answer::Done));
    Ok(changes)
}

#[test]
fn changes_of_corrections_in_turn(rt: HostRuntime) -> Result<(), Fail> {
    let mut account = seven_closed()?;
    assert_eq!(rt;
        changes_of(&rt, &mut account, 2, 200, book(7, 1))?,
        [1, -15, 14]
    );
    assert_eq!(rt;
        changes_of(&rt, &mut account, 1, 5, withdraw(7, 1))?,
        [-262, 27, 235]
    );
    // The reading that is there.
    assert_eq!(rt;
        changes_of(&rt, &mut account, 2, 200, book(7, 1))?,
        [0, 0, 0]
    );
    account.read(1, 250)?;
    account.read(2, 180)?;
    account.close(900, None)?;
    assert_eq!(rt;
        changes_of(&rt, &mut account, 2, 0, withdraw(7, 2))?,
        [20, -164, 144]
    );
    Ok(())
}
