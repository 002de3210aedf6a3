ghost use Rattle.std.proofs.Props.{props};
ghost use Rattle.std.specs.Prelude.{◌≡◌, ◌<◌, ◌≤◌, ◌^◌, None};
ghost use Rattle.house.specs.declared.method.Method.TheVariants as methods;
ghost use Rattle.billing.specs.Counting as counting;
ghost use Rattle.billing.specs.Remainder.{unread, claiming_area, common_pot, plain_pot, own_heat, own_heats, common_shares};
ghost use Rattle.billing.specs.Period.{bills, Billable};

use crate::bill::{Bill, pair_up};
use crate::claims::{Basis, share_by};
use crate::collecting::{PerRoom, collect};
use crate::counting::{CountedRoom, Role};
use crate::sums::Sums;
use sharing::rule::Sharing;

// A period under the method Remainder that nothing speaks against.
#[derive(Clone, Copy)]
pub(crate) struct Remainder<'a> {
    pub(crate) common_area: u32,
    pub(crate) rooms: &'a PerRoom<CountedRoom>,
    pub(crate) total: u32,
    // Of the rooms, added up once for all that is worked from them.
    pub(crate) sums: Sums,
    ghost summed: { sums ≡ counting.sums rooms.now } by { Prim.hlevel props },
    ghost narrow: { sums.plain_area < 2 ^ 42 },
    ghost billable: { Billable (methods.Remainder common_area) rooms.now total None } by { Prim.hlevel props },
}

impl Remainder<'_> {
    // What the meters leave of the total.
    fn unread(&self) -> u32
        ensures { result ≡ unread self.now.rooms.now self.now.total }
    {
        // Here and below `as` narrows what a proof shows to fit; `try_from` would bring a branch that is never taken.
        self.total - self.sums.readings as u32
    }

    // The area that claims it: the common area, and that of the rooms that count as plain.
    fn claiming_area(&self) -> u64
        ensures { result ≡ claiming_area self.now.common_area self.now.rooms.now }
    {
        u64::from(self.common_area) + self.sums.plain_area
    }

    // What falls to the common area, in whole units.
    fn common_pot(&self) -> u32
        ensures { result ≡ common_pot self.now.common_area self.now.rooms.now self.now.total }
    {
        let product = u64::from(self.unread()) * u64::from(self.common_area);
        product.checked_div(self.claiming_area()).unwrap_or(0) as u32
    }

    // What that leaves to the rooms that count as plain: nothing where nobody has a claim.
    fn plain_pot(&self) -> u32
        ensures { result ≡ plain_pot self.now.common_area self.now.rooms.now self.now.total }
    {
        if self.claiming_area() == 0 {
            return 0;
        }
        self.unread() - self.common_pot()
    }

    fn own_heats<R: Sharing>(&self, rule: &R) -> PerRoom<u32>
        ensures { result ≡ own_heats (R.shares rule.now) self.now.common_area self.now.rooms.now self.now.total }
    {
        let shares = share_by(rule, self.plain_pot(), Basis::PlainArea, self.rooms);
        let heats = self.rooms.as_slice().iter().zip(shares.as_slice());
        collect(heats.map(|(room, share)| own_heat(*room, *share)))
    }

    fn common_shares<R: Sharing>(&self, rule: &R) -> PerRoom<u32>
        ensures { result ≡ common_shares (R.shares rule.now) self.now.common_area self.now.rooms.now self.now.total }
    {
        share_by(rule, self.common_pot(), Basis::Area, self.rooms)
    }

    pub(crate) fn bills<R: Sharing>(&self, rule: &R) -> PerRoom<Bill>
        ensures { result ≡ bills (R.shares rule.now) (methods.Remainder self.now.common_area) self.now.rooms.now self.now.total None }
    {
        pair_up(&self.own_heats(rule), &self.common_shares(rule))
    }
}

// A room that is read pays its reading.
fn own_heat(room: CountedRoom, share: u32) -> u32
    ensures { result ≡ own_heat room share }
{
    match room.role {
        Role::Read(figure) => figure,
        Role::Plain | Role::Detached(_) => share,
    }
}
