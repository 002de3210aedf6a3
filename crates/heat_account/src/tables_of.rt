// The tables of an account, room by room in the order of the house.
ghost use Rattle.std.specs.Prelude.{◌≡◌, ℕ, ◌+◌, ◌^◌, ◌<◌, ◌≤◌, true, length, slice_index, slice_index_or};
ghost use Rattle.house.specs.Plan.{lawful};
ghost use Rattle.billing.specs.Period.{figures};
ghost use Rattle.heat_account.specs.State.{billed, unbilled, no_state, with_reading, with_period, with_amended, with_stage, reread};
ghost use Rattle.heat_account.specs.Tables.{state_of, period_of};

use crate::pairing::zip_with;
use crate::stage::Stage;
use billing::bill::{Bill, total};
use house::House;
use tables::Table;

// As many as a house has at most; `MOST_ROOMS` is private to its crate.
pub const ROOMS: usize = 256;

// A closed period: its readings and what its closing brought.
#[derive(Drop)]
pub(crate) struct LastPeriod {
    pub(crate) readings: Table<Option<u32>, ROOMS>,
    pub(crate) total: u32,
    pub(crate) common: Option<u32>,
}

#[derive(Drop)]
// Columns and no table of rows: the calls that show all bills or all balances lend a column as a slice, and readings
// stand beside the rooms as they come. A plain struct: the Model is the account's, which says what the tables hold.
pub(crate) struct Tables {
    // Of the open period.
    pub(crate) readings: Table<Option<u32>, ROOMS>,
    // Before the first closing a period without readings, as the ledger has it; `closed` is 0 then.
    pub(crate) last: LastPeriod,
    pub(crate) bills: Table<Bill, ROOMS>,
    pub(crate) balances: Table<u64, ROOMS>,
    pub(crate) closed: u32,
    pub(crate) stage: Stage,
}

// A bill more in each balance.
// It differs from `take_off` in the closure alone; the bounds that the two ask for differ too.
fn put_on(balances: &[u64], bills: &[Bill]) -> Table<u64, ROOMS>
    requires long { length bills.now ≡ length balances.now }
    requires few { length balances.now ≤ 256 }
    requires room { (k : ℕ) → slice_index balances.now k < 2 ^ 63 }
    ensures { result ≡ billed balances.now bills.now }
{
    zip_with(balances, bills, |balance, bill| balance + total(bill))
}

// A bill less.
fn take_off(balances: &[u64], bills: &[Bill]) -> Table<u64, ROOMS>
    requires long { length bills.now ≡ length balances.now }
    requires few { length balances.now ≤ 256 }
    requires covered { (k : ℕ) → figures (slice_index_or bills.now k (0, 0)) ≤ slice_index balances.now k }
    ensures { result ≡ unbilled balances.now bills.now }
{
    zip_with(balances, bills, |balance, bill| balance - total(bill))
}

impl Tables {
    // Of a house with no period closed. `lawful` hands on its invariant, which is known only where a field is used.
    pub(crate) fn of(house: &House) -> Tables
        ensures value { state_of result ≡ no_state (length house.now.rooms) }
        ensures lawful { lawful house.now.number house.now.method house.now.rooms ≡ true }
    {
        Tables::blank(house.rooms().len())
    }

    fn blank(rooms: usize) -> Tables
        requires { rooms ≤ 256 }
        ensures { state_of result ≡ no_state rooms }
    {
        Tables {
            readings: Table::filled(None, rooms),
            last: LastPeriod {
                readings: Table::filled(None, rooms),
                total: 0,
                common: None,
            },
            bills: Table::filled((0, 0), rooms),
            balances: Table::filled(0, rooms),
            closed: 0,
            stage: Stage::Taking,
        }
    }

    // Notes a reading for the open period.
    pub(crate) fn note(&mut self, place: usize, reading: u32)
        ensures { state_of self.new ≡ with_reading (state_of self.old) place reading }
    {
        self.readings.set(place, Some(reading));
    }

    // Closes the open period with these bills.
    // Total and common figure are what the call hands in, and so are place and reading below.
    pub(crate) fn close(&mut self, total: u32, common: Option<u32>, bills: Table<Bill, ROOMS>)
        requires long { length bills ≡ length self.old.balances }
        requires few { self.old.closed < 600 }
        requires room { (k : ℕ) → slice_index self.old.balances k < 2 ^ 63 }
        ensures { state_of self.new ≡ with_period (state_of self.old) (record { readings = self.old.readings; total = total; common = common }) bills }
    {
        self.last.readings.copy_from(&self.readings);
        self.last.total = total;
        self.last.common = common;
        self.readings = Table::filled(None, self.readings.len());
        self.balances = put_on(self.balances.as_slice(), bills.as_slice());
        self.bills = bills;
        self.closed += 1;
    }

    // Puts a corrected reading and its bills in place.
    pub(crate) fn amend(&mut self, place: usize, reading: u32, corrected: Table<Bill, ROOMS>)
        requires long { length corrected ≡ length self.old.balances }
        requires same { length self.old.bills ≡ length self.old.balances }
        requires room { (k : ℕ) → slice_index self.old.balances k < 2 ^ 63 }
        requires covered { (k : ℕ) → figures (slice_index_or self.old.bills k (0, 0)) ≤ slice_index self.old.balances k }
        ensures { state_of self.new ≡ with_amended (state_of self.old) (reread (period_of self.old.last) place reading) corrected }
    {
        self.last.readings.set(place, Some(reading));
        let before = take_off(self.balances.as_slice(), self.bills.as_slice());
        self.balances = put_on(before.as_slice(), corrected.as_slice());
        self.bills = corrected;
        self.stage = Stage::Taking;
    }

    pub(crate) fn set_stage(&mut self, stage: Stage)
        ensures { state_of self.new ≡ with_stage (state_of self.old) stage }
    {
        self.stage = stage;
    }
}
