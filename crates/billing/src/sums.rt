ghost use Rattle.std.specs.Prelude.{◌≡◌, ◌+◌, ◌^◌, ◌<◌};
ghost use Rattle.billing.specs.Counting.{sums};

use crate::collecting::PerRoom;
use crate::counting::{CountedRoom, Role};

// The sums over the rooms of a period: 256 figures of 32 bits cannot wrap one.
#[derive(Clone, Copy, Default)]
pub(crate) struct Sums {
    pub(crate) plain_rooms: u64,
    pub(crate) plain_area: u64,
    pub(crate) read_area: u64,
    pub(crate) readings: u64,
    pub(crate) pipes: u64,
}

impl Sums {
    pub(crate) fn of(rooms: &PerRoom<CountedRoom>) -> Sums
        ensures value { result ≡ sums rooms.now }
        ensures narrow { (result.readings + result.pipes < 2 ^ 42) × (result.plain_area < 2 ^ 42) }
    {
        // One match says what a room adds to each sum, where five chains would need five of them.
        let mut found = Sums::default();
        for room in rooms.as_slice() {
            let area = u64::from(room.area);
            match room.role {
                Role::Read(figure) => {
                    found.read_area += area;
                    found.readings += u64::from(figure);
                }
                Role::Plain => {
                    found.plain_rooms += 1;
                    found.plain_area += area;
                }
                Role::Detached(pipe) => found.pipes += u64::from(pipe),
            }
        }
        found
    }
}
