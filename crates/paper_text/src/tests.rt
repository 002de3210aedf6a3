use crate::{paper_length, write_house};
use fault::layer::Layer;
use fault::place::Place;
use fault::reason::Reason;
use fault::refusal::Fault;
use house::House;
use house::method::Method;
use house::room::{Kind, Room};
use std::process::Abort;

const PAPER: &[u8] = b"(house 7 (remainder 3000))
(room 1 (metered 5000))
(room 2 (metered 4000))
(room 3 (plain 6000))
";

fn room(number: u32, area: u32, kind: Kind) -> Room {
    Room { number, area, kind }
}

fn house_7(rt: &impl Abort) -> House {
    let mut house = House::new();
    let method = Method::Remainder { common_area: 3000 };
    assert_eq!(rt;
        house.begin(7, method, room(1, 5000, Kind::Metered)),
        Ok(())
    );
    assert_eq!(rt; house.add(room(2, 4000, Kind::Metered)), Ok(()));
    assert_eq!(rt; house.add(room(3, 6000, Kind::Plain)), Ok(()));
    house
}

#[test]
fn the_paper_stands_at_the_front(rt: HostRuntime) {
    let house = house_7(&rt);
    let mut buffer = [b'#'; 100];
    assert_eq!(rt; paper_length(&house), 97);
    assert_eq!(rt; write_house(&house, &mut buffer), Ok(97));
    assert!(rt; &buffer[0..97] == PAPER);
    assert!(rt; &buffer[97..100] == b"###".as_slice());
}

#[test]
fn just_its_length_is_enough(rt: HostRuntime) {
    let house = house_7(&rt);
    let mut buffer = [b'#'; 97];
    assert_eq!(rt; write_house(&house, &mut buffer), Ok(97));
    assert!(rt; buffer.as_slice() == PAPER);
}

#[test]
fn a_byte_short_keeps_its_content(rt: HostRuntime) {
    let house = house_7(&rt);
    let mut buffer = [b'#'; 96];
    let short = Fault {
        reason: Reason::BufferTooShort,
        layer: Layer::Paper,
        place: Place::Nowhere,
    };
    assert_eq!(rt; short.number(), 51);
    assert_eq!(rt; write_house(&house, &mut buffer), Err(short));
    assert!(rt; buffer == [b'#'; 96]);
}

#[test]
fn a_detached_room_has_its_pipe_figure(rt: HostRuntime) {
    let mut house = House::new();
    let method = Method::Stated { floor_percent: 0 };
    let detached = room(999_999, 100_000_000, Kind::Detached { pipe: 12 });
    assert_eq!(rt; house.begin(10, method, detached), Ok(()));
    let mut buffer = [b'#'; 64];
    assert_eq!(rt; write_house(&house, &mut buffer), Ok(60));
    assert!(rt;
        &buffer[0..60]
            == b"(house 10 (stated 0))\n(room 999999 (detached 100000000 12))\n".as_slice()
    );
}
