// A house: its method, and its rooms in the order in which they came.
#![tactic(auto)]

use limits::MOST_ROOMS;
use method::Method;
use room::Room;
use std::marker::Model;
use tables::Table;

mod building;
mod checks;
pub mod limits;
pub mod method;
pub mod room;
#[cfg(test)]
mod tests;

#[derive(Drop)]
pub struct House {
    number: u32,
    method: Method,
    rooms: Table<Room, MOST_ROOMS>,
}

// Clauses see a plan. It is lawful at all times: what would break that is refused.
impl Model for House {
    ghost use Rattle.std.specs.Prelude.{◌≡◌, true};
    ghost use Rattle.house.specs.Plan.{Plan, lawful};

    ghost Value = { Plan };

    ghost view = { λ h. record { number = h.number; method = h.method; rooms = h.rooms } };

    ghost invariant = { λ h. lawful h.number h.method h.rooms ≡ true };
}
