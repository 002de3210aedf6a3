use crate::performing::perform_line;
use fault::refusal::Fault;
use heat_account::Account;
use house::House;
use house::method::Method;
use house::room::{Kind, Room};
use sharing::remainders::Remainders;
use std::alloc::AllocError;
use std::test::Fail;

fn room(number: u32, kind: Kind, area: u32) -> Room {
    Room { number, area, kind }
}

fn open_seven() -> Result<Account<Remainders>, Fault> {
    let mut house = House::new();
    let method = Method::Remainder { common_area: 3000 };
    house.begin(7, method, room(1, Kind::Metered, 5000))?;
    house.add(room(2, Kind::Metered, 4000))?;
    house.add(room(3, Kind::Plain, 6000))?;
    Ok(Account::open(house, Remainders))
}

fn perform_lines(
    account: &mut Account<Remainders>,
    lines: &[&[u8]],
    out: &mut String,
) -> Result<(), AllocError> {
    for line in lines {
        perform_line(account, *line, out)?;
    }
    Ok(())
}

#[test]
fn a_season_is_listed_event_by_event(rt: HostRuntime) -> Result<(), Fail> {
    let mut account = open_seven()?;
    let mut out = String::new(rt.alloc());
    perform_lines(
        &mut account,
        &[
            b"(read 1 300)",
            b"(close 1000)",
            b"(correct 2 200 book)",
            b"(balance)",
        ],
        &mut out,
    )?;
    assert_eq!(rt;
        out.as_str(),
        "(done)\n(bill 1 300 54)\n(bill 2 216 43)\n(bill 3 323 64)\n(sum 1000)\n(change 1 1)\n(change 2 -15)\n(change 3 14)\n(balance 1 355)\n(balance 2 244)\n(balance 3 401)\n(sum 1000)\n"
    );
    Ok(())
}

#[test]
fn a_withdrawn_correction_is_told_and_changes_nothing(rt: HostRuntime) -> Result<(), Fail> {
    let mut account = open_seven()?;
    account.read(1, 300)?;
    account.close(1000, None)?;
    let mut out = String::new(rt.alloc());
    perform_lines(
        &mut account,
        &[b"(correct 2 200 withdraw)", b"(balance)"],
        &mut out,
    )?;
    assert_eq!(rt;
        out.as_str(),
        "(change 1 1)\n(change 2 -15)\n(change 3 14)\n(balance 1 354)\n(balance 2 259)\n(balance 3 387)\n(sum 1000)\n"
    );
    Ok(())
}

#[test]
fn a_refusal_is_listed_by_its_number(rt: HostRuntime) -> Result<(), Fail> {
    let mut account = open_seven()?;
    let mut out = String::new(rt.alloc());
    perform_lines(
        &mut account,
        &[
            b"(correct 1 100 book)",
            b"(read 3 7)",
            b"(read 9 7)",
            b"(close 1000 160)",
            b"(close)",
            b"",
        ],
        &mut out,
    )?;
    assert_eq!(rt;
        out.as_str(),
        "(refused 31)\n(refused 12)\n(refused 11)\n(refused 24)\n(refused 1)\n(refused 1)\n"
    );
    Ok(())
}
