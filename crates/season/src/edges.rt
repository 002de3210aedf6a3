use crate::houses::{SEVEN_ROOMS, open};
use fault::place::Place;
use fault::reason::Reason;
use fault::refusal::Fault;
use heat_account::Account;
use house::method::Method;
use house::room::Kind;
use sharing::remainders::Remainders;
use std::process::Abort;
use std::test::Fail;

const MOST: u32 = 100_000_000;

const HALF: u32 = 50_000_000;

struct Edge {
    method: Method,
    rooms: &'static [(Kind, u32)],
    // By room number.
    readings: &'static [(u32, u32)],
    total: u32,
    common: Option<u32>,
    bills: &'static [(u32, u32)],
}

const EIGHT_ROOMS: &[(Kind, u32)] = &[
    (Kind::Metered, 5000),
    (Kind::Metered, 5000),
    (Kind::Plain, 4000),
    (Kind::Detached { pipe: 12 }, 2000),
];

fn check_edge(rt: &impl Abort, edge: &Edge) -> Result<(), Fail> {
    let total = edge.total;
    let mut account = open(5, edge.method, edge.rooms)?;
    for (room, reading) in edge.readings {
        account.read(*room, *reading)?;
    }
    assert_eq!(rt; account.close(total, edge.common), Ok(1), "total {total}");
    // By hand: a balance may be refused, which ends the test.
    let mut sum = 0u64;
    for (room, (own, common)) in (1..).zip(edge.bills) {
        assert_eq!(rt; account.bill(room), Ok((*own, *common)), "total {total}");
        sum = sum.saturating_add(account.balance(room)?);
    }
    assert_eq!(rt; sum, u64::from(total), "total {total}");
    Ok(())
}

fn check_edges(rt: &impl Abort, edges: &[Edge]) -> Result<(), Fail> {
    for edge in edges {
        check_edge(rt, edge)?;
    }
    Ok(())
}

const REMAINDER_EDGES: [Edge; 6] = [
    // Every room is read.
    Edge {
        method: Method::Remainder { common_area: 3000 },
        rooms: &[(Kind::Metered, 5000), (Kind::Metered, 4000)],
        readings: &[(1, 300), (2, 200)],
        total: 600,
        common: None,
        bills: &[(300, 56), (200, 44)],
    },
    // No room has a meter, and there is no common area.
    Edge {
        method: Method::Remainder { common_area: 0 },
        rooms: &[(Kind::Plain, 1), (Kind::Plain, 1), (Kind::Plain, 1)],
        readings: &[],
        total: 10,
        common: None,
        bills: &[(4, 0), (3, 0), (3, 0)],
    },
    // Meters that nobody read.
    Edge {
        method: Method::Remainder { common_area: 3000 },
        rooms: &SEVEN_ROOMS,
        readings: &[],
        total: 1000,
        common: None,
        bills: &[(278, 55), (222, 44), (334, 67)],
    },
    // The readings are the total.
    Edge {
        method: Method::Remainder { common_area: 0 },
        rooms: &[(Kind::Metered, 5000), (Kind::Metered, 5000)],
        readings: &[(1, 10), (2, 0)],
        total: 10,
        common: None,
        bills: &[(10, 0), (0, 0)],
    },
    // A reading of 0 is a reading.
    Edge {
        method: Method::Remainder { common_area: 0 },
        rooms: &[(Kind::Metered, 5000), (Kind::Plain, 3000)],
        readings: &[(1, 0)],
        total: 7,
        common: None,
        bills: &[(0, 0), (7, 0)],
    },
    Edge {
        method: Method::Remainder { common_area: HALF },
        rooms: &[(Kind::Plain, HALF)],
        readings: &[],
        total: MOST,
        common: None,
        bills: &[(HALF, HALF)],
    },
];

const STATED_EDGES: [Edge; 9] = [
    // No floor, half and the whole.
    Edge {
        method: Method::Stated { floor_percent: 0 },
        rooms: EIGHT_ROOMS,
        readings: &[(1, 100), (2, 500)],
        total: 1000,
        common: Some(160),
        bills: &[(100, 50), (500, 50), (228, 40), (12, 20)],
    },
    Edge {
        method: Method::Stated { floor_percent: 50 },
        rooms: EIGHT_ROOMS,
        readings: &[(1, 100), (2, 500)],
        total: 1000,
        common: Some(160),
        bills: &[(150, 50), (450, 50), (228, 40), (12, 20)],
    },
    Edge {
        method: Method::Stated { floor_percent: 100 },
        rooms: EIGHT_ROOMS,
        readings: &[(1, 100), (2, 500)],
        total: 1000,
        common: Some(160),
        bills: &[(300, 50), (300, 50), (228, 40), (12, 20)],
    },
    // Nothing is left for the plain room.
    Edge {
        method: Method::Stated { floor_percent: 50 },
        rooms: EIGHT_ROOMS,
        readings: &[(1, 100), (2, 500)],
        total: 772,
        common: Some(160),
        bills: &[(150, 50), (450, 50), (0, 40), (12, 20)],
    },
    // Every reading is 0.
    Edge {
        method: Method::Stated { floor_percent: 100 },
        rooms: EIGHT_ROOMS,
        readings: &[(1, 0), (2, 0)],
        total: 12,
        common: Some(0),
        bills: &[(0, 0), (0, 0), (0, 0), (12, 0)],
    },
    // No room counts as plain, so that all that is left is common.
    Edge {
        method: Method::Stated { floor_percent: 50 },
        rooms: &[
            (Kind::Metered, 5000),
            (Kind::Metered, 5000),
            (Kind::Detached { pipe: 12 }, 2000),
        ],
        readings: &[(1, 100), (2, 500)],
        total: 1000,
        common: None,
        bills: &[(150, 162), (450, 162), (12, 64)],
    },
    // No room has a meter.
    Edge {
        method: Method::Stated { floor_percent: 50 },
        rooms: &[
            (Kind::Detached { pipe: 12 }, 3000),
            (Kind::Detached { pipe: 20 }, 1000),
        ],
        readings: &[],
        total: 40,
        common: None,
        bills: &[(12, 6), (20, 2)],
    },
    Edge {
        method: Method::Stated { floor_percent: 100 },
        rooms: &[(Kind::Metered, HALF), (Kind::Metered, HALF)],
        readings: &[(1, MOST), (2, 0)],
        total: MOST,
        common: None,
        bills: &[(HALF, 0), (HALF, 0)],
    },
    Edge {
        method: Method::Stated { floor_percent: 0 },
        rooms: &[(Kind::Plain, MOST)],
        readings: &[],
        total: MOST,
        common: Some(MOST),
        bills: &[(0, MOST)],
    },
];

#[test]
fn remainder_edges(rt: HostRuntime) -> Result<(), Fail> {
    check_edges(&rt, &REMAINDER_EDGES)
}

#[test]
fn stated_edges(rt: HostRuntime) -> Result<(), Fail> {
    check_edges(&rt, &STATED_EDGES)
}

#[test]
fn the_largest_house(rt: HostRuntime) -> Result<(), Fail> {
    let method = Method::Remainder { common_area: 0 };
    let mut account = open(999_999, method, &[(Kind::Metered, 1); 256])?;
    account.close(255, None)?;
    assert_eq!(rt; account.bill(255), Ok((1, 0)));
    assert_eq!(rt; account.bill(256), Ok((0, 0)));
    let above = Err(Fault::new(Reason::ReadingsAboveTotal, Place::Nowhere));
    account.read(1, MOST)?;
    // In 32 bits the sum of 43 such readings would be small again.
    for room in 2..257 {
        account.read(room, MOST)?;
        assert_eq!(rt; account.close(MOST, None), above);
    }
    Ok(())
}
