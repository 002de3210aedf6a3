// Finding a room by its number.
ghost use Rattle.std.specs.Prelude.{◌≡◌, ◌<◌, true, length, IfOk};
ghost use Rattle.house.specs.Plan.{ascend_from};
ghost use Rattle.heat_account.specs.Judged.{takes, found_from};

use fault::reason::Reason;
use house::room::{Kind, Room};

// Of a reading of one room for one period; that the limits of areas and of units are the same number is chance.
const MOST_READING: u32 = 100_000_000;

// The room and its place. The numbers of a house's rooms rise.
pub(crate) fn find_room(rooms: &[Room], number: u32) -> Result<(usize, Room), Reason>
    requires { ascend_from 0 rooms.now ≡ true }
    ensures value { result ≡ found_from rooms.now 0 number }
    ensures within { IfOk result (λ f. f.0 < length rooms.now) }
{
    // A match: its arms are the two answers of a search. By `or(Err(..))?` it would be as long, and no plainer.
    match rooms.binary_search_by_key(&number, |room| room.number) {
        Ok(place) => Ok((place, rooms[place])),
        Err(_) => Err(Reason::UnknownRoom),
    }
}

// The place of the room, if it takes this reading.
pub(crate) fn take_reading(kind: Kind, reading: u32, place: usize) -> Result<usize, Reason>
    ensures { result ≡ takes kind reading place }
{
    match kind {
        Kind::Metered if reading > MOST_READING => Err(Reason::ReadingTooLarge),
        Kind::Metered => Ok(place),
        Kind::Plain | Kind::Detached { .. } => Err(Reason::NotMetered),
    }
}
