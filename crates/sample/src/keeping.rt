// A season of house 7: two periods, a late reading in each, and a reading that is refused.
use crate::late::correct_late;
use crate::{AREAS, FLATS};
use billing::bill;
use events::event::Ending;
use fault::refusal::Fault;
use heat_account::Account;
use house::House;
use house::method::Method;
use house::room::{Kind, Room};
use sharing::remainders::Remainders;
use std::io;

// What ends the season early. Its two `From` are written out: no library of the project derives them.
pub(crate) enum Stop {
    Refused(Fault),
    Output(io::Error),
}

impl From<Fault> for Stop {
    fn from(fault: Fault) -> Stop {
        Stop::Refused(fault)
    }
}

impl From<io::Error> for Stop {
    fn from(error: io::Error) -> Stop {
        Stop::Output(error)
    }
}

fn flat(number: u32, area: u32, kind: Kind) -> Room {
    Room { number, area, kind }
}

fn house_seven() -> Result<House, Fault> {
    let mut house = House::new();
    let method = Method::Remainder { common_area: 3000 };
    let [first, second, third] = AREAS;
    house.begin(7, method, flat(1, first, Kind::Metered))?;
    house.add(flat(2, second, Kind::Metered))?;
    house.add(flat(3, third, Kind::Plain))?;
    Ok(house)
}

// `season` has the same for its tests: what takes a closure asks something of its caller, so it cannot be public.
fn of_each_flat<T: Copy + Default, F: Fn(u32) -> Result<T, Fault>>(
    figure: F,
) -> Result<[T; FLATS], Fault>
    requires { F.IsAlwaysCallable figure }
{
    let mut figures = [T::default(); FLATS];
    for (flat, place) in (1..).zip(&mut figures) {
        *place = figure(flat)?;
    }
    Ok(figures)
}

fn balances(account: &Account<Remainders>) -> Result<[u64; FLATS], Fault> {
    of_each_flat(|flat| account.balance(flat))
}

fn close_period(
    rt: &HostRuntime,
    account: &mut Account<Remainders>,
    total: u32,
) -> Result<(), Stop> {
    let period = account.close(total, None)?;
    println!(rt; "house 7, period {period}, total {total}")?;
    let bills = of_each_flat(|flat| account.bill(flat))?;
    for (flat, (own, common)) in (1..).zip(&bills) {
        println!(rt; "flat {flat}: own heat {own}, common share {common}")?;
    }
    // A fold: `sum` would have to show that it stays in range.
    let sum = bills
        .iter()
        .map(|figures| bill::total(*figures))
        .fold(0, u64::saturating_add);
    println!(rt; "sum {sum}")?;
    Ok(())
}

fn print_change(rt: &HostRuntime, flat: u32, before: u64, after: u64) -> io::Result<()> {
    let sign = if after < before { "-" } else { "" };
    let change = after.abs_diff(before);
    println!(rt; "flat {flat}: change {sign}{change}, balance {after}")
}

fn print_balances(rt: &HostRuntime, before: &[u64; FLATS], after: &[u64; FLATS]) -> io::Result<()> {
    for (flat, (old, new)) in (1..).zip(before.iter().zip(after)) {
        print_change(rt, flat, *old, *new)?;
    }
    // A fold, as above.
    let sum = after.iter().copied().fold(0, u64::saturating_add);
    println!(rt; "sum {sum}")
}

fn keep_first(rt: &HostRuntime, account: &mut Account<Remainders>) -> Result<(), Stop> {
    account.read(1, 300)?;
    close_period(rt, account, 1000)?;
    let before = balances(account)?;
    correct_late(account, 2, 200, Ending::Book)?;
    println!(rt; "flat 2 reads 200, late: booked")?;
    print_balances(rt, &before, &balances(account)?)?;
    Ok(())
}

fn keep_second(rt: &HostRuntime, account: &mut Account<Remainders>) -> Result<(), Stop> {
    account.read(1, 250)?;
    account.read(2, 180)?;
    close_period(rt, account, 900)?;
    let before = balances(account)?;
    correct_late(account, 2, 280, Ending::Withdraw)?;
    println!(rt; "flat 2 reads 280, late: withdrawn")?;
    print_balances(rt, &before, &balances(account)?)?;
    Ok(())
}

pub(crate) fn keep_season(rt: &HostRuntime) -> Result<(), Stop> {
    let mut account = Account::open(house_seven()?, Remainders);
    keep_first(rt, &mut account)?;
    keep_second(rt, &mut account)?;
    // Flat 3 has no meter.
    account.read(3, 7)?;
    Ok(())
}
