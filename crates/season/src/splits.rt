use crate::houses::{SEVEN, SEVEN_ROOMS, open, seven_closed};
use fault::layer::Layer;
use fault::place::Place;
use heat_account::Account;
use sharing::remainders::Remainders;
use std::process::Abort;
use std::test::Fail;

// A split that is refused, by number, layer and place, leaves the holders' place as it was.
fn check_refused(
    rt: &impl Abort,
    account: &Account<Remainders>,
    room: u32,
    stakes: &[u32],
    refusal: (u8, Layer, Place),
) {
    let mut place = [7; 3];
    let fault = account.split(room, stakes, &mut place).err();
    let told = fault.map(|fault| (fault.number(), fault.layer, fault.place));
    assert_eq!(rt; told, Some(refusal));
    assert_eq!(rt; place, [7; 3]);
}

#[test]
fn a_bill_among_holders(rt: HostRuntime) -> Result<(), Fail> {
    let account = seven_closed()?;
    let mut place = [7; 3];
    // 323 and 64.
    assert_eq!(rt; account.split(3, &[1, 1], &mut place), Ok(()));
    assert_eq!(rt; place, [194, 193, 7]);
    Ok(())
}

#[test]
fn refused_splits(rt: HostRuntime) -> Result<(), Fail> {
    let none_closed = open(7, SEVEN, &SEVEN_ROOMS)?;
    check_refused(
        &rt,
        &none_closed,
        9,
        &[],
        (31, Layer::Account, Place::Room(9)),
    );
    let account = seven_closed()?;
    check_refused(
        &rt,
        &account,
        9,
        &[0; 4],
        (11, Layer::Account, Place::Room(9)),
    );
    check_refused(
        &rt,
        &account,
        3,
        &[0; 4],
        (41, Layer::Sharing, Place::Nowhere),
    );
    let heavy = [100_000_000, 1];
    check_refused(
        &rt,
        &account,
        3,
        &heavy,
        (42, Layer::Sharing, Place::Nowhere),
    );
    check_refused(
        &rt,
        &account,
        3,
        &[0; 3],
        (43, Layer::Sharing, Place::Nowhere),
    );
    Ok(())
}
