// Building a house, room by room, and reading it.
ghost use Rattle.std.specs.Prelude.{◌≡◌, true, None, OnErr};
ghost use Rattle.house.specs.Plan.{answer, bare, begin_refusal, first_plan, lawful, room_refusal, settled, with_room};

use crate::House;
use crate::checks::{check_first, check_room, refuse};
use crate::method::Method;
use crate::room::{Kind, Room};
use fault::refusal::Fault;
use tables::Table;

impl House {
    // A house to begin from, since there is none without a room.
    pub fn new() -> House
        ensures { result ≡ first_plan }
    {
        House::with_room(
            1,
            Method::Remainder { common_area: 0 },
            Room {
                number: 1,
                area: 1,
                kind: Kind::Plain,
            },
        )
    }

    fn with_room(number: u32, method: Method, room: Room) -> House
        requires { begin_refusal number method room ≡ None }
        ensures { result ≡ with_room (bare number method) room }
    {
        House {
            number,
            method,
            rooms: Table::filled(room, 1),
        }
    }

    pub fn number(&self) -> u32
        ensures { result ≡ self.now.number }
    {
        self.number
    }

    pub fn method(&self) -> Method
        ensures { result ≡ self.now.method }
    {
        self.method
    }

    // What an invariant says is known only where a field is used, so it is promised here too.
    pub fn rooms(&self) -> &[Room]
        ensures value { result.now ≡ self.now.rooms }
        ensures lawful { lawful self.now.number self.now.method self.now.rooms ≡ true }
    {
        self.rooms.as_slice()
    }

    // Replaces the house by one with its first room. A refusal leaves it as it was.
    pub fn begin(&mut self, number: u32, method: Method, room: Room) -> Result<(), Fault>
        ensures value { result ≡ answer (begin_refusal number method room) room }
        ensures after { self.new ≡ settled (begin_refusal number method room) (with_room (bare number method) room) self.old }
        ensures kept { OnErr result (self.new ≡ self.old) }
    {
        check_first(number, method, room).map_err(|reason| refuse(reason, room))?;
        *self = House::with_room(number, method, room);
        Ok(())
    }

    // Brings a further room. A refusal leaves the house as it was.
    pub fn add(&mut self, room: Room) -> Result<(), Fault>
        ensures value { result ≡ answer (room_refusal self.old room) room }
        ensures after { self.new ≡ settled (room_refusal self.old room) (with_room self.old room) self.old }
        ensures kept { OnErr result (self.new ≡ self.old) }
    {
        check_room(self.method(), self.rooms(), room).map_err(|reason| refuse(reason, room))?;
        self.push(room);
        Ok(())
    }

    fn push(&mut self, room: Room)
        requires { room_refusal self.old room ≡ None }
        ensures { self.new ≡ with_room self.old room }
    {
        // Never full: a room too many is refused.
        let _ = self.rooms.push(room);
    }
}
