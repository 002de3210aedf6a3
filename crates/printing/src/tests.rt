use crate::{
    print_balances, print_bills, print_changes, print_done, print_refused, print_refused_paper,
    print_rule,
};
use fault::place::Place;
use fault::reason::Reason;
use fault::refusal::Fault;
use house::room::{Kind, Room};
use std::test::Fail;

const SEVEN_ROOMS: [Room; 3] = [
    Room {
        number: 1,
        area: 5000,
        kind: Kind::Metered,
    },
    Room {
        number: 2,
        area: 4000,
        kind: Kind::Metered,
    },
    Room {
        number: 3,
        area: 6000,
        kind: Kind::Plain,
    },
];

#[test]
fn a_house_is_billed_in_order(rt: HostRuntime) -> Result<(), Fail> {
    let mut out = String::new(rt.alloc());
    print_rule(&mut out, "remainders")?;
    print_done(&mut out)?;
    print_bills(&mut out, &SEVEN_ROOMS, &[(300, 54), (216, 43), (323, 64)])?;
    assert_eq!(rt;
        out.as_str(),
        "(rule remainders)\n(done)\n(bill 1 300 54)\n(bill 2 216 43)\n(bill 3 323 64)\n(sum 1000)\n"
    );
    Ok(())
}

#[test]
fn changes_may_be_below_0(rt: HostRuntime) -> Result<(), Fail> {
    let mut out = String::new(rt.alloc());
    print_changes(&mut out, &SEVEN_ROOMS, &[1, -15, 14])?;
    print_changes(&mut out, &SEVEN_ROOMS, &[i64::MIN, 0])?;
    assert_eq!(rt;
        out.as_str(),
        "(change 1 1)\n(change 2 -15)\n(change 3 14)\n(change 1 -9223372036854775808)\n(change 2 0)\n"
    );
    Ok(())
}

#[test]
fn a_sum_of_balances_never_wraps(rt: HostRuntime) -> Result<(), Fail> {
    let mut out = String::new(rt.alloc());
    print_balances(&mut out, &SEVEN_ROOMS, &[u64::MAX, 0, 1, 2])?;
    assert_eq!(rt;
        out.as_str(),
        "(balance 1 18446744073709551615)\n(balance 2 0)\n(balance 3 1)\n(sum 18446744073709551616)\n"
    );
    Ok(())
}

#[test]
fn a_refused_paper_tells_its_place_in_the_text(rt: HostRuntime) -> Result<(), Fail> {
    let mut out = String::new(rt.alloc());
    let text = Place::Text {
        line: 3,
        column: 17,
    };
    print_refused_paper(&mut out, Fault::new(Reason::RoomNotAscending, text))?;
    print_refused_paper(&mut out, Fault::new(Reason::InputTooLong, Place::Nowhere))?;
    print_refused_paper(&mut out, Fault::new(Reason::AreasTooLarge, Place::Room(4)))?;
    print_refused(&mut out, Fault::new(Reason::UnknownRoom, Place::Room(4)))?;
    assert_eq!(rt;
        out.as_str(),
        "(refused 5 3 17)\n(refused 52 0 0)\n(refused 7 0 0)\n(refused 11)\n"
    );
    Ok(())
}
