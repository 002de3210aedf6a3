use crate::calls::{book, close, correct, read, withdraw};
use crate::corrections::correct_late;
use crate::houses::{SEVEN, SEVEN_ROOMS, open, seven_closed};
use events::event::Ending;
use fault::layer::Layer;
use fault::place::Place;
use fault::refusal::Fault;
use heat_account::Account;
use heat_account::answer::Answer;
use heat_account::call::Call;
use house::method::Method;
use house::room::Kind;
use sharing::remainders::Remainders;
use std::process::Abort;
use std::test::Fail;

const MOST: u32 = 100_000_000;

const ABOVE: u32 = 100_000_001;

const NO_COMMON_AREA: Method = Method::Remainder { common_area: 0 };

// Why a call of its own is refused. A slip that it hands out is withdrawn.
fn fault_of_call(account: &mut Account<Remainders>, call: Call) -> Option<Fault> {
    match call {
        Call::Read { room, reading } => account.read(room, reading).err(),
        Call::Close { total, common } => account.close(total, common).err(),
        Call::Correct { room, reading } => {
            correct_late(account, room, reading, Ending::Withdraw).err()
        }
        Call::Bill { room } => account.bill(room).err(),
        Call::Balance { room } => account.balance(room).err(),
        Call::Book { .. } | Call::Withdraw { .. } => account.perform(call).err(),
    }
}

// Each call with the number and the place of its refusal, which leaves the account as it was.
fn check_refused(rt: &impl Abort, account: &mut Account<Remainders>, cases: &[(Call, u8, Place)]) {
    for (call, number, place) in cases {
        let fault = fault_of_call(account, *call);
        if let Some(fault) = fault {
            assert_eq!(rt; account.perform(*call), Err(fault));
        }
        let told = fault.map(|fault| (fault.number(), fault.layer, fault.place));
        assert_eq!(rt;
            told,
            Some((*number, Layer::Account, *place)),
            "case {number}"
        );
    }
}

#[test]
fn nothing_is_closed(rt: HostRuntime) -> Result<(), Fail> {
    let mut account = open(7, SEVEN, &SEVEN_ROOMS)?;
    account.read(1, 300)?;
    let (house, period) = (7, 0);
    check_refused(
        &rt,
        &mut account,
        &[
            (read(9, ABOVE), 11, Place::Room(9)),
            (read(3, ABOVE), 12, Place::Room(3)),
            (read(1, ABOVE), 13, Place::Room(1)),
            (close(ABOVE, Some(0)), 23, Place::Nowhere),
            (close(0, Some(ABOVE)), 23, Place::Nowhere),
            (close(MOST, Some(MOST)), 24, Place::Nowhere),
            (close(299, Some(0)), 24, Place::Nowhere),
            (close(299, None), 25, Place::Nowhere),
            (correct(9, ABOVE), 31, Place::Room(9)),
            (correct(1, 0), 31, Place::Room(1)),
            (book(house, period), 32, Place::Nowhere),
            (withdraw(house, period), 32, Place::Nowhere),
            (Call::Bill { room: 9 }, 31, Place::Room(9)),
            (Call::Bill { room: 1 }, 31, Place::Room(1)),
            (Call::Balance { room: 9 }, 11, Place::Room(9)),
        ],
    );
    Ok(())
}

#[test]
fn a_period_is_closed(rt: HostRuntime) -> Result<(), Fail> {
    let mut account = seven_closed()?;
    let (house, period) = (7, 1);
    check_refused(
        &rt,
        &mut account,
        &[
            (correct(0, ABOVE), 11, Place::Room(0)),
            (correct(3, ABOVE), 12, Place::Room(3)),
            (correct(2, ABOVE), 13, Place::Room(2)),
            (correct(2, MOST), 25, Place::Room(2)),
            (correct(2, 701), 25, Place::Room(2)),
            (book(house, period), 32, Place::Nowhere),
            (withdraw(house, period), 32, Place::Nowhere),
            (Call::Bill { room: 0 }, 11, Place::Room(0)),
        ],
    );
    // While a correction is open.
    account.perform(correct(2, 700))?;
    check_refused(
        &rt,
        &mut account,
        &[
            (read(0, 0), 11, Place::Room(0)),
            (close(ABOVE, Some(0)), 21, Place::Nowhere),
            (correct(0, ABOVE), 21, Place::Room(0)),
            (book(house, 0), 32, Place::Nowhere),
            (book(8, period), 32, Place::Nowhere),
            (withdraw(house, 2), 32, Place::Nowhere),
            (withdraw(8, period), 32, Place::Nowhere),
        ],
    );
    assert_eq!(rt; account.read(1, 1), Ok(()));
    assert_eq!(rt; account.bill(2), Ok((216, 43)));
    assert_eq!(rt; account.perform(book(house, period)), Ok(Answer::Done));
    assert_eq!(rt; account.bill(2), Ok((700, 0)));
    Ok(())
}

#[test]
fn a_rest_that_nobody_claims(rt: HostRuntime) -> Result<(), Fail> {
    let mut account = open(1, NO_COMMON_AREA, &[(Kind::Metered, 1), (Kind::Metered, 1)])?;
    account.read(1, 300)?;
    assert_eq!(rt; account.close(400, None), Ok(1));
    check_refused(
        &rt,
        &mut account,
        &[
            (correct(2, 101), 25, Place::Room(2)),
            (correct(2, 99), 26, Place::Room(2)),
        ],
    );
    account.read(1, 300)?;
    account.read(2, 0)?;
    check_refused(
        &rt,
        &mut account,
        &[
            (close(299, None), 25, Place::Nowhere),
            (close(301, None), 26, Place::Nowhere),
        ],
    );
    assert_eq!(rt; account.close(300, None), Ok(2));
    Ok(())
}

#[test]
fn a_common_figure_that_comes_or_not(rt: HostRuntime) -> Result<(), Fail> {
    let method = Method::Stated { floor_percent: 50 };
    let mut account = open(
        8,
        method,
        &[(Kind::Metered, 1), (Kind::Detached { pipe: 12 }, 1)],
    )?;
    check_refused(
        &rt,
        &mut account,
        &[
            (read(2, ABOVE), 12, Place::Room(2)),
            (close(ABOVE, None), 23, Place::Nowhere),
            (close(11, None), 24, Place::Nowhere),
            (close(20, Some(9)), 25, Place::Nowhere),
        ],
    );
    assert_eq!(rt; account.close(20, Some(8)), Ok(1));
    check_refused(&rt, &mut account, &[(correct(1, MOST), 24, Place::Room(1))]);
    account.read(1, 5)?;
    check_refused(
        &rt,
        &mut account,
        &[
            (close(16, Some(0)), 24, Place::Nowhere),
            (close(16, None), 25, Place::Nowhere),
        ],
    );
    assert_eq!(rt; account.close(17, None), Ok(2));
    check_refused(&rt, &mut account, &[(correct(1, 6), 25, Place::Room(1))]);
    Ok(())
}
