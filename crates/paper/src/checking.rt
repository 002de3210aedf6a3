// What a paper's writer did wrong, and where.
ghost use Rattle.std.specs.Prelude.{◌≡◌, true, IfOk};
ghost use Rattle.fault.specs.Numbers.{fault_of};
ghost use Rattle.fault.specs.declared.reason.Reason.TheVariants.{NumberOutOfRange};
ghost use Rattle.house.specs.Plan.{bare, number_fits, method_fits};
ghost use Rattle.forms.specs.Form.{follow};
ghost use Rattle.paper.specs.Lines.{house_form, room_form};
ghost use Rattle.paper.specs.Reading.{missing, misfit_at, fault_at, headed, bared, joined, placed};

use crate::heading::{Heading, read_heading};
use crate::room_line::{RoomLine, read_room_line};
use fault::place::Place;
use fault::reason::Reason;
use fault::refusal::Fault;
use house::House;
use house::limits::{area_fits, number_fits};

// The paper ends before its first room line.
pub(crate) fn missing(line: usize) -> Fault
    ensures { result ≡ missing line }
{
    Fault::new(Reason::NoRoomLine, Place::Text { line, column: 1 })
}

fn out_of_range(place: Place) -> Fault
    ensures { result ≡ fault_of NumberOutOfRange place }
{
    Fault::new(Reason::NumberOutOfRange, place)
}

// The first line, with its numbers in their ranges.
pub(crate) fn check_heading(text: &[u8]) -> Result<Heading, Fault>
    ensures value { bared result ≡ headed (follow (house_form 1) 1 text.now) }
    ensures number { IfOk result (λ h. number_fits h.number ≡ true) }
    ensures method { IfOk result (λ h. method_fits h.method ≡ true) }
{
    let heading = read_heading(text, 1)?;
    if !number_fits(heading.number) {
        Err(out_of_range(heading.number_at))
    } else if !heading.method.fits() {
        Err(out_of_range(heading.figure_at))
    } else {
        Ok(heading)
    }
}

impl RoomLine {
    // Its leftmost number that is out of range, once there is one.
    fn misfit_at(&self) -> Place
        ensures { result ≡ misfit_at self.now }
    {
        if !number_fits(self.room.number) {
            self.number_at
        } else if !area_fits(self.room.area) {
            self.area_at
        } else {
            self.pipe_at
        }
    }

    // Where the line is at fault.
    fn fault_at(&self, line: usize, reason: Reason) -> Place
        ensures { result ≡ fault_at line self.now reason }
    {
        match reason {
            Reason::NumberOutOfRange => self.misfit_at(),
            Reason::TooManyRooms => Place::Text { line, column: 1 },
            Reason::RoomNotAscending => self.number_at,
            Reason::KindNotTaken => self.kind_at,
            // The areas: a house gives no other reason.
            _ => self.area_at,
        }
    }

    // The room is refused for this reason.
    fn refused(&self, line: usize, reason: Reason) -> Fault
        ensures { result ≡ fault_of reason (fault_at line self.now reason) }
    {
        Fault::new(reason, self.fault_at(line, reason))
    }
}

// The house with the room of its first room line.
pub(crate) fn begin_house(heading: Heading, text: &[u8], line: usize) -> Result<House, Fault>
    requires number { number_fits heading.number ≡ true }
    requires method { method_fits heading.method ≡ true }
    ensures { result ≡ joined line (bare heading.number heading.method) (follow (room_form line) 1 text.now) }
{
    let said = read_room_line(text, line)?;
    let mut house = House::new();
    house
        .begin(heading.number, heading.method, said.room)
        .map_err(|fault| said.refused(line, fault.reason))?;
    Ok(house)
}

// Adds the room of a further line.
pub(crate) fn add_room(house: &mut House, text: &[u8], line: usize) -> Result<(), Fault>
    ensures { placed result house.new ≡ joined line house.old (follow (room_form line) 1 text.now) }
{
    let said = read_room_line(text, line)?;
    house
        .add(said.room)
        .map_err(|fault| said.refused(line, fault.reason))
}
