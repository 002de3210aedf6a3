ghost use Rattle.std.specs.Prelude.{◌≡◌, []};
ghost use Rattle.billing.specs.Pots.{pot_shares, Shareable};
ghost use Rattle.billing.specs.Claims as spec;
ghost use Rattle.billing.specs.Claims.{claim, claims};

use crate::collecting::{PerRoom, fill};
use crate::counting::{CountedRoom, Role};
use crate::floors::Floors;
use crate::pots::share_pot;
use sharing::rule::Sharing;

// Who has a claim to a pot, and of what weight.
#[derive(Clone, Copy)]
pub(crate) enum Basis {
    // Every room, by its area.
    Area,
    // The rooms that count as plain, by their area.
    PlainArea,
    // The rooms that are read, by what their reading is above the floor.
    Excess(Floors),
}

impl Basis {
    fn claim(self, room: CountedRoom) -> Option<u32>
        ensures { result ≡ claim self room }
    {
        match (self, room.role) {
            (Basis::Area, _) | (Basis::PlainArea, Role::Plain) => Some(room.area),
            (Basis::Excess(floors), Role::Read(_)) => Some(floors.excess(room)),
            (Basis::PlainArea | Basis::Excess(_), _) => None,
        }
    }

    fn claims(self, rooms: &PerRoom<CountedRoom>, claims: &mut PerRoom<Option<u32>>)
        requires { claims.old ≡ [] }
        ensures { claims.new ≡ spec.claims self rooms.now }
    {
        fill(
            claims,
            rooms.as_slice().iter().map(|room| self.claim(*room)),
        );
    }
}

// Shares a pot among the rooms that claim it on this basis.
pub(crate) fn share_by<R: Sharing>(
    rule: &R,
    pot: u32,
    basis: Basis,
    rooms: &PerRoom<CountedRoom>,
) -> PerRoom<u32>
    requires { Shareable pot (claims basis rooms.now) }
    ensures { result ≡ pot_shares (R.shares rule.now) pot (claims basis rooms.now) }
{
    let mut claims = PerRoom::filled(None, 0);
    basis.claims(rooms, &mut claims);
    share_pot(rule, pot, &claims)
}
