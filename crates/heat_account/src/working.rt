// What an account works out without changing anything.
ghost use Rattle.std.specs.Prelude.{◌≡◌, ℕ, ◌<◌, ◌≤◌, true, length, IfOk, slice_index, slice_index_or};
ghost use Rattle.billing.specs.Counting.{counted};
ghost use Rattle.billing.specs.Period.{refusal, bills, figures};
ghost use Rattle.billing.specs.Worked.{ruled};
ghost use Rattle.heat_account.specs.State.{period_bills, reread};
ghost use Rattle.heat_account.specs.Judged.{meter_of, place_of, unamendable, amend_of, correcting, fits, judged, judged_value, judged_answer};
ghost use Rattle.heat_account.specs.Kept.{Holds};
ghost use Rattle.heat_account.specs.declared.call.Call.TheVariants.{Bill, Balance};
ghost use Rattle.heat_account.specs.declared.stage.Stage.TheVariants.{Correcting};

use crate::Account;
use crate::answer::Answer;
use crate::finding::{find_room, take_reading};
use crate::tables_of::ROOMS;
use billing::bill::Bill;
use billing::working::work_out;
use fault::reason::Reason;
use sharing::rule::Sharing;
use tables::Table;

// That a place is within this house stands in each contract: a type of its own could not say of which house.
// Pairs such as total and common figure are what the match on the call takes from it.
impl<R: Sharing> Account<R> {
    // The place of a room that takes this reading.
    pub(crate) fn meter(&self, room: u32, reading: u32) -> Result<usize, Reason>
        ensures value { result ≡ meter_of self.now.house room reading }
        ensures within { IfOk result (λ i. i < length self.now.house.rooms) }
    {
        let (place, found) = find_room(self.house.rooms(), room)?;
        take_reading(found.kind, reading, place)
    }

    pub(crate) fn place(&self, room: u32) -> Result<usize, Reason>
        ensures value { result ≡ place_of self.now.house room }
        ensures within { IfOk result (λ i. i < length self.now.house.rooms) }
    {
        let (place, _) = find_room(self.house.rooms(), room)?;
        Ok(place)
    }

    // The bills of the open period, closed with these figures.
    pub(crate) fn work_open(
        &self,
        total: u32,
        common: Option<u32>,
    ) -> Result<Table<Bill, ROOMS>, Reason>
        ensures { result ≡ ruled (refusal self.now.house.method (counted self.now.house.rooms self.now.state.readings) total common) (period_bills (R.shares self.now.rule) self.now.house (record { readings = self.now.state.readings; total = total; common = common })) }
    {
        let readings = self.tables.readings.as_slice();
        work_out(&self.rule, &self.house, readings, total, common)
    }

    // The bills of the last closed period with another reading.
    // `held` hands on what the invariant says, which is known only where a field is used.
    pub(crate) fn work_again(
        &self,
        place: usize,
        reading: u32,
    ) -> Result<Table<Bill, ROOMS>, Reason>
        ensures held { Holds self.now.house self.now.state }
        ensures value { result ≡ ruled (unamendable self.now.house self.now.state.last place reading) (period_bills (R.shares self.now.rule) self.now.house (reread self.now.state.last place reading)) }
    {
        let mut readings = Table::filled(None, 0);
        readings.copy_from(&self.tables.last.readings);
        readings.set(place, Some(reading));
        work_out(
            &self.rule,
            &self.house,
            readings.as_slice(),
            self.tables.last.total,
            self.tables.last.common,
        )
    }

    // The bills of the correction that is open.
    pub(crate) fn corrected_bills(&self, place: usize, reading: u32) -> Table<Bill, ROOMS>
        requires { self.now.state.stage ≡ Correcting place reading }
        ensures value { result ≡ period_bills (R.shares self.now.rule) self.now.house (reread self.now.state.last place reading) }
        ensures long { length result ≡ length self.now.house.rooms }
        ensures small { (k : ℕ) → figures (slice_index_or result k (0, 0)) ≤ 100000000 }
    {
        // It was worked out before it was held.
        self.work_again(place, reading).unwrap()
    }

    // The place of a room whose late reading the last closed period can be worked out with.
    pub(crate) fn amendable(&self, room: u32, reading: u32) -> Result<usize, Reason>
        ensures value { result ≡ amend_of self.now.house self.now.state room reading }
        ensures within { IfOk result (λ i. i < length self.now.house.rooms) }
    {
        if self.tables.closed == 0 {
            return Err(Reason::NothingClosed);
        }
        let place = self.meter(room, reading)?;
        self.work_again(place, reading)?;
        Ok(place)
    }

    // Whether a slip is of the correction that is open.
    pub(crate) fn fits(&self, house: u32, period: u32) -> bool
        requires { correcting self.now.state.stage ≡ true }
        ensures { result ≡ fits self.now.house self.now.state house period }
    {
        house == self.house.number() && period == self.tables.closed
    }

    // The place of a room, once a period is closed.
    fn billed_place(&self, room: u32) -> Result<usize, Reason>
        ensures value { result ≡ judged self.now.house self.now.state (Bill room) }
        ensures within { IfOk result (λ i. i < length self.now.house.rooms) }
    {
        match self.tables.closed {
            0 => Err(Reason::NothingClosed),
            _ => self.place(room),
        }
    }

    // Own heat and common share of a room's last bill. `held` hands on what the invariant says, which is known only where a field is used.
    pub(crate) fn look_up_bill(&self, room: u32) -> Result<Bill, Reason>
        ensures value { result ≡ judged_value self.now.house self.now.state (Bill room) (λ place. slice_index_or self.now.state.bills place (0, 0)) }
        ensures small { IfOk result (λ b. figures b ≤ 100000000) }
        ensures held { Holds self.now.house self.now.state }
    {
        let bills = self.tables.bills.as_slice();
        let place = self.billed_place(room)?;
        Ok(bills[place])
    }

    // Apart from `look_up_bill`: a balance is told before any closing, a bill is not. `held` as there.
    pub(crate) fn look_up_balance(&self, room: u32) -> Result<u64, Reason>
        ensures value { result ≡ judged_value self.now.house self.now.state (Balance room) (λ place. slice_index self.now.state.balances place) }
        ensures held { Holds self.now.house self.now.state }
    {
        let balances = self.tables.balances.as_slice();
        let place = self.place(room)?;
        Ok(balances[place])
    }

    // Apart from `tell_balance`: the two answers differ in what they carry.
    pub(crate) fn tell_bill(&self, room: u32) -> Result<Answer, Reason>
        ensures { result ≡ judged_answer self.now.house self.now.state (Bill room) }
    {
        let (own, common) = self.look_up_bill(room)?;
        Ok(Answer::Billed(own, common))
    }

    pub(crate) fn tell_balance(&self, room: u32) -> Result<Answer, Reason>
        ensures { result ≡ judged_answer self.now.house self.now.state (Balance room) }
    {
        Ok(Answer::Balanced(self.look_up_balance(room)?))
    }
}
