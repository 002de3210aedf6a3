// What a house refuses.
ghost use Rattle.std.specs.Prelude.{◌≡◌, ◌+◌, ◌≤◌};
ghost use Rattle.std.specs.Result.{result_err};
ghost use Rattle.house.specs.Plan.{area_sum, areas_fit, begin_refusal, house_fault, last_number, most_area, next_refusal};

use crate::limits::{MOST_AREA, MOST_ROOMS, number_fits};
use crate::method::Method;
use crate::room::Room;
use fault::layer::Layer;
use fault::place::Place;
use fault::reason::Reason;
use fault::refusal::Fault;

pub(crate) fn refuse(reason: Reason, room: Room) -> Fault
    ensures { result ≡ house_fault reason room }
{
    Fault {
        reason,
        layer: Layer::House,
        place: Place::Room(room.number),
    }
}

fn last_number(rooms: &[Room]) -> u32
    ensures { result ≡ last_number rooms.now }
{
    rooms.last().map_or(0, |last| last.number)
}

// No type holds rooms that are no house yet, so what bounds their areas stands in three contracts.
// Sums over rooms run as a loop, room by room: that form is fixed.
fn area_sum(rooms: &[Room]) -> u64
    requires { area_sum rooms.now ≤ most_area }
    ensures { result ≡ area_sum rooms.now }
{
    let mut sum = 0;
    for room in rooms {
        sum += u64::from(room.area);
    }
    sum
}

// Whether the areas stay in their range with a further room.
fn areas_fit(method: Method, rooms: &[Room], room: Room) -> bool
    requires { area_sum rooms.now ≤ most_area }
    ensures { result ≡ areas_fit method (area_sum rooms.now + room.area) }
{
    area_sum(rooms) + u64::from(room.area) + u64::from(method.common_area()) <= u64::from(MOST_AREA)
}

// Whether a further room may come after these, or the first reason against it.
pub(crate) fn check_room(method: Method, rooms: &[Room], room: Room) -> Result<(), Reason>
    requires { area_sum rooms.now ≤ most_area }
    ensures { result_err result ≡ next_refusal method rooms.now room }
{
    if !room.fits() {
        Err(Reason::NumberOutOfRange)
    } else if rooms.len() >= MOST_ROOMS {
        Err(Reason::TooManyRooms)
    } else if room.number <= last_number(rooms) {
        Err(Reason::RoomNotAscending)
    } else if !method.takes(room.kind) {
        Err(Reason::KindNotTaken)
    } else if !areas_fit(method, rooms, room) {
        Err(Reason::AreasTooLarge)
    } else {
        Ok(())
    }
}

// Whether a house may have this first room, or the first reason against it.
pub(crate) fn check_first(number: u32, method: Method, room: Room) -> Result<(), Reason>
    ensures { result_err result ≡ begin_refusal number method room }
{
    if !number_fits(number) || !method.fits() {
        return Err(Reason::NumberOutOfRange);
    }
    check_room(method, &[], room)
}
