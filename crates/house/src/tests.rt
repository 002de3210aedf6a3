use crate::House;
use crate::method::Method;
use crate::room::{Kind, Room};
use fault::layer::Layer;
use fault::place::Place;
use fault::reason::Reason;
use fault::refusal::Fault;

const STATED: Method = Method::Stated { floor_percent: 0 };

fn plain(number: u32, area: u32) -> Room {
    Room {
        number,
        area,
        kind: Kind::Plain,
    }
}

fn detached(number: u32, area: u32, pipe: u32) -> Room {
    Room {
        number,
        area,
        kind: Kind::Detached { pipe },
    }
}

fn refused(reason: Reason, room: Room) -> Result<(), Fault> {
    Err(Fault {
        reason,
        layer: Layer::House,
        place: Place::Room(room.number),
    })
}

#[test]
fn a_new_house_has_one_plain_room(rt: HostRuntime) {
    let house = House::new();
    assert_eq!(rt; house.number(), 1);
    assert_eq!(rt; house.method(), Method::Remainder { common_area: 0 });
    assert!(rt; house.rooms() == [plain(1, 1)].as_slice());
}

#[test]
fn a_house_begins_within_its_ranges(rt: HostRuntime) {
    let mut house = House::new();
    let room = plain(7, 1);
    let out = refused(Reason::NumberOutOfRange, room);
    let most = Method::Stated { floor_percent: 100 };
    assert_eq!(rt; house.begin(1_000_000, most, room), out);
    assert_eq!(rt; house.begin(0, most, room), out);
    assert_eq!(rt;
        house.begin(1, Method::Stated { floor_percent: 101 }, room),
        out
    );
    let common_area = 100_000_001;
    assert_eq!(rt;
        house.begin(1, Method::Remainder { common_area }, room),
        out
    );
    let common_area = 100_000_000;
    let large = refused(Reason::AreasTooLarge, room);
    assert_eq!(rt;
        house.begin(1, Method::Remainder { common_area }, room),
        large
    );
    assert!(rt; house.rooms() == [plain(1, 1)].as_slice());
    assert_eq!(rt; house.begin(999_999, most, room), Ok(()));
    assert_eq!(rt; house.number(), 999_999);
    assert_eq!(rt; house.method(), most);
    assert!(rt; house.rooms() == [room].as_slice());
}

#[test]
fn a_room_stays_within_its_ranges(rt: HostRuntime) {
    let mut house = House::new();
    for room in [
        plain(0, 1),
        plain(1_000_000, 1),
        plain(7, 0),
        plain(7, 100_000_001),
        detached(7, 1, 100_000_001),
    ] {
        let out = refused(Reason::NumberOutOfRange, room);
        assert_eq!(rt; house.begin(1, STATED, room), out);
        assert_eq!(rt; house.add(room), out);
    }
    let most = detached(999_999, 100_000_000, 100_000_000);
    assert_eq!(rt; house.begin(1, STATED, most), Ok(()));
    assert!(rt; house.rooms() == [most].as_slice());
}

#[test]
fn the_first_reason_is_told(rt: HostRuntime) {
    let mut house = House::new();
    for room in [plain(1, 1), detached(1, 1, 0)] {
        let below = refused(Reason::RoomNotAscending, room);
        assert_eq!(rt; house.add(room), below);
    }
    let room = detached(2, 100_000_000, 0);
    assert_eq!(rt; house.add(room), refused(Reason::KindNotTaken, room));
    let room = plain(2, 100_000_000);
    assert_eq!(rt; house.add(room), refused(Reason::AreasTooLarge, room));
    assert!(rt; house.rooms() == [plain(1, 1)].as_slice());
    assert_eq!(rt; house.add(plain(2, 99_999_999)), Ok(()));
    let room = plain(3, 1);
    assert_eq!(rt; house.add(room), refused(Reason::AreasTooLarge, room));
    assert!(rt; house.rooms() == [plain(1, 1), plain(2, 99_999_999)].as_slice());
}

#[test]
fn the_common_area_counts(rt: HostRuntime) {
    let mut house = House::new();
    let method = Method::Remainder {
        common_area: 99_999_990,
    };
    assert_eq!(rt; house.begin(1, method, plain(1, 4)), Ok(()));
    let room = plain(2, 7);
    assert_eq!(rt; house.add(room), refused(Reason::AreasTooLarge, room));
    assert_eq!(rt; house.add(plain(2, 6)), Ok(()));
}

#[test]
fn there_is_room_for_256(rt: HostRuntime) {
    let mut house = House::new();
    for number in 2..257 {
        assert_eq!(rt; house.add(plain(number, 1)), Ok(()));
    }
    for room in [plain(257, 1), plain(1, 1), detached(257, 1, 0)] {
        assert_eq!(rt; house.add(room), refused(Reason::TooManyRooms, room));
    }
    let room = plain(257, 0);
    assert_eq!(rt; house.add(room), refused(Reason::NumberOutOfRange, room));
    assert_eq!(rt; house.rooms().len(), 256);
    assert_eq!(rt; house.begin(2, STATED, detached(5, 1, 0)), Ok(()));
    assert!(rt; house.rooms() == [detached(5, 1, 0)].as_slice());
}
