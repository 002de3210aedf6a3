ghost use Rattle.std.specs.Prelude.{◌≡◌, ◌≤◌, length, None, slice_index_or};
ghost use Rattle.billing.specs.Counting.{role, counted};

use crate::collecting::{PerRoom, collect};
use house::room::{Kind, Room};

// How a room counts in a period.
#[derive(Clone, Copy, PartialEq, Eq, Debug, Default)]
pub enum Role {
    // Metered, with this reading.
    Read(u32),
    // Plain, or metered without a reading.
    #[default]
    Plain,
    // Detached, with its pipe figure.
    Detached(u32),
}

// A room as it counts in a period.
#[derive(Clone, Copy, Default)]
pub struct CountedRoom {
    pub area: u32,
    pub role: Role,
}

pub(crate) fn count(room: &Room, reading: Option<u32>) -> CountedRoom
    ensures { result ≡ record { area = room.now.area; role = role room.now.kind reading } }
{
    let role = match (room.kind, reading) {
        (Kind::Metered, Some(figure)) => Role::Read(figure),
        (Kind::Metered, None) | (Kind::Plain, _) => Role::Plain,
        (Kind::Detached { pipe }, _) => Role::Detached(pipe),
    };
    CountedRoom {
        area: room.area,
        role,
    }
}

// The reading at a place, none past the end.
fn reading_at(readings: &[Option<u32>], place: usize) -> Option<u32>
    ensures { result ≡ slice_index_or readings.now place None }
{
    readings.get(place).copied().flatten()
}

// The rooms of a house with their readings beside them.
pub(crate) fn count_rooms(rooms: &[Room], readings: &[Option<u32>]) -> PerRoom<CountedRoom>
    requires { length rooms.now ≤ 256 }
    ensures { result ≡ counted rooms.now readings.now }
{
    // By place and not by a zip: a room past the end of the readings has none.
    let placed = rooms.iter().enumerate();
    collect(placed.map(|(i, room)| count(room, reading_at(readings, i))))
}
