ghost use Rattle.std.specs.Prelude.{◌≡◌};
ghost use Rattle.std.specs.Result.{result_err};
ghost use Rattle.billing.specs.Period.{wants_common, outlay, unclaimed, refusal, bills, Billable, Laws};

use crate::bill::Bill;
use crate::collecting::PerRoom;
use crate::counting::CountedRoom;
use crate::remainder::Remainder;
use crate::stated::Stated;
use crate::sums::Sums;
use fault::reason::Reason;
use house::method::Method;
use sharing::pot::MOST_UNITS;
use sharing::rule::Sharing;

// A period that is to be closed.
#[derive(Clone, Copy)]
pub(crate) struct Period<'a> {
    pub(crate) method: Method,
    pub(crate) rooms: &'a PerRoom<CountedRoom>,
    pub(crate) total: u32,
    // The common figure, where one is stated.
    pub(crate) common: Option<u32>,
}

// Where the methods differ there is a match and not a trait: a house holds its method as a value, so a trait would still
// need a match to pick the impl, and each match names what a further method has to bring.
impl Period<'_> {
    // Whether the common figure comes with the closing: where it is stated and some room counts as plain.
    fn wants_common(&self) -> bool
        ensures { result ≡ wants_common self.now.method self.now.rooms.now }
    {
        match self.method {
            Method::Remainder { .. } => false,
            Method::Stated { .. } => Sums::of(self.rooms).plain_rooms > 0,
        }
    }

    // What is billed before anything is shared.
    fn outlay(&self) -> u64
        ensures { result ≡ outlay self.now.method self.now.rooms.now self.now.common }
    {
        let sums = Sums::of(self.rooms);
        match self.method {
            Method::Remainder { .. } => sums.readings,
            Method::Stated { .. } => {
                sums.readings + sums.pipes + u64::from(self.common.unwrap_or(0))
            }
        }
    }

    // Whether something is left that nobody has a claim to.
    fn is_unclaimed(&self) -> bool
        ensures { result ≡ unclaimed self.now.method self.now.rooms.now self.now.total }
    {
        match self.method {
            Method::Remainder { common_area } => {
                let sums = Sums::of(self.rooms);
                sums.readings < u64::from(self.total)
                    && u64::from(common_area) + sums.plain_area == 0
            }
            Method::Stated { .. } => false,
        }
    }

    // Whether it may be closed with these figures, or the first reason against it.
    pub(crate) fn check(&self) -> Result<(), Reason>
        ensures { result_err result ≡ refusal self.now.method self.now.rooms.now self.now.total self.now.common }
    {
        if self.total > MOST_UNITS || self.common.unwrap_or(0) > MOST_UNITS {
            Err(Reason::FigureTooLarge)
        } else if self.wants_common() != self.common.is_some() {
            Err(Reason::CommonFigure)
        } else if u64::from(self.total) < self.outlay() {
            Err(Reason::ReadingsAboveTotal)
        } else if self.is_unclaimed() {
            Err(Reason::RestUnclaimed)
        } else {
            Ok(())
        }
    }

    // Its bills, where nothing speaks against it.
    pub(crate) fn bills<R: Sharing>(&self, rule: &R) -> PerRoom<Bill>
        requires { Billable self.now.method self.now.rooms.now self.now.total self.now.common }
        ensures bills { result ≡ bills (R.shares rule.now) self.now.method self.now.rooms.now self.now.total self.now.common }
        ensures laws { Laws self.now.method self.now.rooms.now self.now.total self.now.common result }
    {
        match self.method {
            Method::Remainder { common_area } => Remainder {
                common_area,
                rooms: self.rooms,
                total: self.total,
                sums: Sums::of(self.rooms),
            }
            .bills(rule),
            Method::Stated { floor_percent } => Stated {
                floor_percent,
                rooms: self.rooms,
                total: self.total,
                common: self.common,
                sums: Sums::of(self.rooms),
            }
            .bills(rule),
        }
    }
}
