// Working out the bills of a house for one period.
ghost use Rattle.std.specs.Prelude.{◌≡◌};
ghost use Rattle.billing.specs.Counting.{counted};
ghost use Rattle.billing.specs.Period.{refusal, bills};
ghost use Rattle.billing.specs.Worked.{ruled};

use crate::bill::Bill;
use crate::counting::count_rooms;
use crate::period::Period;
use fault::reason::Reason;
use house::House;
use sharing::pot::MOST_CLAIMANTS;
use sharing::rule::Sharing;
use tables::Table;

// The bills of a period of a house with these readings, or the first reason against it. A room past the end of the readings has none.
#[tactic(auto, using(crate::proofs::HouseLaws::billable))]
pub fn work_out<R: Sharing>(
    rule: &R,
    house: &House,
    readings: &[Option<u32>],
    total: u32,
    common: Option<u32>,
) -> Result<Table<Bill, MOST_CLAIMANTS>, Reason>
    ensures { result ≡ ruled (refusal house.now.method (counted house.now.rooms readings.now) total common) (bills (R.shares rule.now) house.now.method (counted house.now.rooms readings.now) total common) }
{
    let rooms = count_rooms(house.rooms(), readings);
    let period = Period {
        method: house.method(),
        rooms: &rooms,
        total,
        common,
    };
    period.check()?;
    Ok(period.bills(rule))
}
