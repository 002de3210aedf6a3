ghost use Rattle.std.proofs.Props.{props};
ghost use Rattle.std.specs.Prelude.{◌≡◌, ◌+◌, ◌-◌, ◌<◌, ◌≤◌, ◌^◌};
ghost use Rattle.house.specs.declared.method.Method.TheVariants as methods;
ghost use Rattle.billing.specs.Counting as counting;
ghost use Rattle.billing.specs.Counting.{read_sum, pipe_sum};
ghost use Rattle.billing.specs.Pots.{beside, Both};
ghost use Rattle.billing.specs.Claims.{floors};
ghost use Rattle.billing.specs.Stated.{common_figure, rest, gross_heats, deductions, own_heats, common_shares};
ghost use Rattle.billing.specs.Period.{bills, Billable};

use crate::bill::{Bill, pair_up};
use crate::claims::{Basis, share_by};
use crate::collecting::{PerRoom, collect};
use crate::counting::CountedRoom;
use crate::floors::Floors;
use crate::sums::Sums;
use sharing::rule::Sharing;

// A period under the method Stated that nothing speaks against.
#[derive(Clone, Copy)]
pub(crate) struct Stated<'a> {
    pub(crate) floor_percent: u32,
    pub(crate) rooms: &'a PerRoom<CountedRoom>,
    pub(crate) total: u32,
    pub(crate) common: Option<u32>,
    // Of the rooms, added up once for all that is worked from them.
    pub(crate) sums: Sums,
    ghost summed: { sums ≡ counting.sums rooms.now } by { Prim.hlevel props },
    ghost narrow: { sums.readings + sums.pipes < 2 ^ 42 },
    ghost billable: { Billable (methods.Stated floor_percent) rooms.now total common } by { Prim.hlevel props },
}

impl Stated<'_> {
    // What readings and pipe figures leave of the total.
    fn left(&self) -> u32
        ensures { result ≡ self.now.total - read_sum self.now.rooms.now - pipe_sum self.now.rooms.now }
    {
        // Here and below `as` narrows what a proof shows to fit; `try_from` would bring a branch that is never taken.
        self.total - (self.sums.readings + self.sums.pipes) as u32
    }

    // As stated, or else all that is left.
    fn common_figure(&self) -> u32
        ensures { result ≡ common_figure self.now.rooms.now self.now.total self.now.common }
    {
        self.common.unwrap_or(self.left())
    }

    // What the rooms that count as plain share.
    fn rest(&self) -> u32
        ensures { result ≡ rest self.now.rooms.now self.now.total self.now.common }
    {
        self.left() - self.common_figure()
    }

    fn floors(&self) -> Floors
        ensures { result ≡ floors self.now.floor_percent self.now.rooms.now }
    {
        Floors::of(self.floor_percent, self.sums)
    }

    fn gross_heats<R: Sharing>(&self, rule: &R) -> PerRoom<u32>
        ensures { result ≡ gross_heats (R.shares rule.now) self.now.floor_percent self.now.rooms.now self.now.total self.now.common }
    {
        let shares = share_by(rule, self.rest(), Basis::PlainArea, self.rooms);
        self.floors().gross_of(self.rooms, &shares)
    }

    // What the rooms above their floors bear of the surcharges.
    fn deductions<R: Sharing>(&self, rule: &R) -> PerRoom<u32>
        ensures { result ≡ deductions (R.shares rule.now) self.now.floor_percent self.now.rooms.now }
    {
        let floors = self.floors();
        let pot = floors.surcharges(self.rooms) as u32;
        share_by(rule, pot, Basis::Excess(floors), self.rooms)
    }

    fn own_heats<R: Sharing>(&self, rule: &R) -> PerRoom<u32>
        ensures { result ≡ own_heats (R.shares rule.now) self.now.floor_percent self.now.rooms.now self.now.total self.now.common }
    {
        deduct(&self.gross_heats(rule), &self.deductions(rule))
    }

    fn common_shares<R: Sharing>(&self, rule: &R) -> PerRoom<u32>
        ensures { result ≡ common_shares (R.shares rule.now) self.now.rooms.now self.now.total self.now.common }
    {
        share_by(rule, self.common_figure(), Basis::Area, self.rooms)
    }

    pub(crate) fn bills<R: Sharing>(&self, rule: &R) -> PerRoom<Bill>
        ensures { result ≡ bills (R.shares rule.now) (methods.Stated self.now.floor_percent) self.now.rooms.now self.now.total self.now.common }
    {
        pair_up(&self.own_heats(rule), &self.common_shares(rule))
    }
}

fn deduct(heats: &PerRoom<u32>, deductions: &PerRoom<u32>) -> PerRoom<u32>
    requires { Both (λ heat deduction. deduction ≤ heat) heats.now deductions.now }
    ensures { result ≡ beside (λ heat deduction. heat - deduction) heats.now deductions.now }
{
    let pairs = heats.as_slice().iter().zip(deductions.as_slice());
    collect(pairs.map(|(heat, deduction)| *heat - *deduction))
}
