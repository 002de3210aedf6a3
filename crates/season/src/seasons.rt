use crate::calls::{book, close, correct, read, withdraw};
use crate::corrections::{Seen, book_elsewhere, correct_late};
use crate::houses::{Figures, SEVEN, SEVEN_ROOMS, build, figures_of, open, seven_closed};
use events::event::Ending;
use fault::place::Place;
use fault::reason::Reason;
use fault::refusal::Fault;
use heat_account::Account;
use heat_account::answer::Answer;
use heat_account::call::Call;
use heat_account::runs::run;
use house::method::Method;
use house::room::Kind;
use sharing::remainders::Remainders;
use std::process::Abort;
use std::test::Fail;

const CLOSED: Figures = Figures {
    bills: [(300, 54), (216, 43), (323, 64)],
    balances: [354, 259, 387],
};

const BOOKED: Figures = Figures {
    bills: [(300, 55), (200, 44), (334, 67)],
    balances: [355, 244, 401],
};

fn check_seen(rt: &impl Abort, seen: Seen, period: u32, figures: Figures) {
    assert_eq!(rt; seen.slip, (7, period));
    assert_eq!(rt; seen.figures, figures);
}

#[test]
fn a_season_of_house_7(rt: HostRuntime) -> Result<(), Fail> {
    let mut account = open(7, SEVEN, &SEVEN_ROOMS)?;
    assert_eq!(rt; account.balance(1), Ok(0));
    assert_eq!(rt; account.read(1, 300), Ok(()));
    assert_eq!(rt; account.close(1000, None), Ok(1));
    assert_eq!(rt; figures_of(&account)?, CLOSED);
    check_seen(
        &rt,
        correct_late(&mut account, 2, 200, Ending::Book)?,
        1,
        CLOSED,
    );
    assert_eq!(rt; figures_of(&account)?, BOOKED);
    check_seen(
        &rt,
        correct_late(&mut account, 1, 5, Ending::Withdraw)?,
        1,
        BOOKED,
    );
    assert_eq!(rt; figures_of(&account)?, BOOKED);
    // The reading that is there.
    check_seen(
        &rt,
        correct_late(&mut account, 2, 200, Ending::Book)?,
        1,
        BOOKED,
    );
    assert_eq!(rt; figures_of(&account)?, BOOKED);
    Ok(())
}

#[test]
fn a_second_period_begins_with_no_readings(rt: HostRuntime) -> Result<(), Fail> {
    let mut account = seven_closed()?;
    // Readings of the open period outlive a booking.
    account.read(1, 250)?;
    check_seen(
        &rt,
        correct_late(&mut account, 2, 200, Ending::Book)?,
        1,
        CLOSED,
    );
    account.read(2, 999)?;
    account.read(2, 180)?;
    assert_eq!(rt; account.close(900, None), Ok(2));
    let second = Figures {
        bills: [(250, 52), (180, 42), (314, 62)],
        balances: [657, 466, 777],
    };
    assert_eq!(rt; figures_of(&account)?, second);
    check_seen(
        &rt,
        correct_late(&mut account, 2, 0, Ending::Withdraw)?,
        2,
        second,
    );
    assert_eq!(rt; account.close(0, None), Ok(3));
    assert_eq!(rt; account.bill(1), Ok((0, 0)));
    assert_eq!(rt; account.balance(1), Ok(657));
    Ok(())
}

#[test]
fn a_slip_fits_by_its_numbers(rt: HostRuntime) -> Result<(), Fail> {
    let mut account = seven_closed()?;
    let mut twin = seven_closed()?;
    let mut later = seven_closed()?;
    later.close(500, None)?;
    let mut other = open(8, SEVEN, &SEVEN_ROOMS)?;
    other.close(500, None)?;
    let mismatch = Some(Fault::new(Reason::SlipMismatch, Place::Nowhere));
    assert_eq!(rt; book_elsewhere(&mut account, &mut twin, 2, 200)?, mismatch);
    twin.perform(correct(2, 100))?;
    later.perform(correct(2, 100))?;
    other.perform(correct(2, 100))?;
    assert_eq!(rt; book_elsewhere(&mut account, &mut later, 2, 200)?, mismatch);
    assert_eq!(rt; book_elsewhere(&mut account, &mut other, 2, 200)?, mismatch);
    assert_eq!(rt; book_elsewhere(&mut account, &mut twin, 2, 200)?, None);
    assert_eq!(rt; twin.bill(2), Ok((100, 53)));
    // Its own slip is gone, and the numbers end the correction.
    assert_eq!(rt; account.perform(withdraw(7, 1)), Ok(Answer::Done));
    assert_eq!(rt; figures_of(&account)?, CLOSED);
    Ok(())
}

fn refused(reason: Reason) -> Result<Answer, Fault> {
    Err(Fault::new(reason, Place::Nowhere))
}

#[test]
fn the_600th_closing_is_the_last(rt: HostRuntime) -> Result<(), Fail> {
    let method = Method::Remainder { common_area: 0 };
    let mut account = open(1, method, &[(Kind::Metered, 1), (Kind::Plain, 1)])?;
    for period in 1..601 {
        assert_eq!(rt; account.close(100_000_000, None), Ok(period));
    }
    let more = close(100_000_001, None);
    assert_eq!(rt; account.perform(more), refused(Reason::PeriodsFull));
    assert_eq!(rt; account.balance(1), Ok(30_000_000_000));
    // Readings and corrections go on.
    assert_eq!(rt; account.read(1, 5), Ok(()));
    let (house, period) = (1, 600);
    assert_eq!(rt;
        account.perform(correct(1, 0)),
        Ok(Answer::Corrected { house, period })
    );
    assert_eq!(rt; account.perform(more), refused(Reason::CorrectionOpen));
    assert_eq!(rt; account.perform(book(house, period)), Ok(Answer::Done));
    assert_eq!(rt; account.balance(1), Ok(29_950_000_000));
    Ok(())
}

#[test]
fn a_run_answers_each_call(rt: HostRuntime) -> Result<(), Fail> {
    let calls = [
        read(1, 300),
        close(1000, None),
        correct(2, 200),
        close(1, None),
        book(7, 2),
        book(7, 1),
        Call::Bill { room: 2 },
        Call::Balance { room: 3 },
        withdraw(7, 1),
    ];
    let mut answers = [Ok(Answer::Balanced(9)); 10];
    let house = build(7, SEVEN, &SEVEN_ROOMS)?;
    let account = run(house, Remainders, &calls, &mut answers);
    assert_eq!(rt; figures_of(&account)?, BOOKED);
    assert_eq!(rt;
        answers,
        [
            Ok(Answer::Done),
            Ok(Answer::Closed(1)),
            Ok(Answer::Corrected {
                house: 7,
                period: 1,
            }),
            refused(Reason::CorrectionOpen),
            refused(Reason::SlipMismatch),
            Ok(Answer::Done),
            Ok(Answer::Billed(200, 44)),
            Ok(Answer::Balanced(401)),
            refused(Reason::SlipMismatch),
            // Beyond the calls.
            Ok(Answer::Balanced(9)),
        ]);
    Ok(())
}
