// What an account does for each call, once the stage has let it through.
ghost use Rattle.std.specs.Prelude.{◌≡◌, true};
ghost use Rattle.heat_account.specs.Judged.{judged_answer, performed, correcting};
ghost use Rattle.heat_account.specs.Kept.{Holds};
ghost use Rattle.heat_account.specs.declared.call.Call.TheVariants.{Read, Close, Correct, Book, Withdraw};
ghost use Rattle.heat_account.specs.declared.stage.Stage.TheVariants.{Taking, Correcting};

use crate::Account;
use crate::answer::Answer;
use crate::call::Call;
use crate::stage::Stage;
use fault::reason::Reason;
use sharing::rule::Sharing;

const MOST_PERIODS: u32 = 600;

impl<R: Sharing> Account<R> {
    fn note_reading(&mut self, room: u32, reading: u32) -> Result<Answer, Reason>
        ensures value { result ≡ judged_answer self.old.house self.old.state (Read room reading) }
        ensures after { self.new ≡ performed (R.shares self.old.rule) self.old (Read room reading) }
    {
        let place = self.meter(room, reading)?;
        self.tables.note(place, reading);
        Ok(Answer::Done)
    }

    // Total and common figure, place and reading, house and period: each pair is what the match takes from a call or a stage.
    fn close_period(&mut self, total: u32, common: Option<u32>) -> Result<Answer, Reason>
        requires { self.old.state.stage ≡ Taking }
        ensures value { result ≡ judged_answer self.old.house self.old.state (Close total common) }
        ensures after { self.new ≡ performed (R.shares self.old.rule) self.old (Close total common) }
    {
        if self.tables.closed >= MOST_PERIODS {
            return Err(Reason::PeriodsFull);
        }
        let bills = self.work_open(total, common)?;
        self.tables.close(total, common, bills);
        Ok(Answer::Closed(self.tables.closed))
    }

    fn hold_correction(&mut self, room: u32, reading: u32) -> Result<Answer, Reason>
        requires { self.old.state.stage ≡ Taking }
        ensures value { result ≡ judged_answer self.old.house self.old.state (Correct room reading) }
        ensures after { self.new ≡ performed (R.shares self.old.rule) self.old (Correct room reading) }
    {
        let place = self.amendable(room, reading)?;
        self.tables.set_stage(Stage::Correcting { place, reading });
        Ok(Answer::Corrected {
            house: self.house.number(),
            period: self.tables.closed,
        })
    }

    fn book_correction(
        &mut self,
        place: usize,
        reading: u32,
        house: u32,
        period: u32,
    ) -> Result<Answer, Reason>
        requires { self.old.state.stage ≡ Correcting place reading }
        ensures value { result ≡ judged_answer self.old.house self.old.state (Book house period) }
        ensures after { self.new ≡ performed (R.shares self.old.rule) self.old (Book house period) }
    {
        if !self.fits(house, period) {
            return Err(Reason::SlipMismatch);
        }
        let bills = self.corrected_bills(place, reading);
        self.tables.amend(place, reading, bills);
        Ok(Answer::Done)
    }

    fn drop_correction(&mut self, house: u32, period: u32) -> Result<Answer, Reason>
        requires { correcting self.old.state.stage ≡ true }
        ensures value { result ≡ judged_answer self.old.house self.old.state (Withdraw house period) }
        ensures after { self.new ≡ performed (R.shares self.old.rule) self.old (Withdraw house period) }
    {
        if !self.fits(house, period) {
            return Err(Reason::SlipMismatch);
        }
        self.tables.set_stage(Stage::Taking);
        Ok(Answer::Done)
    }

    // One match, so that no pair of stage and call is left out.
    // What a call does depends on the stage together with the call.
    // `held` hands on what the invariant says, which is known only where a field is used.
    pub(crate) fn act(&mut self, call: Call) -> Result<Answer, Reason>
        ensures value { result ≡ judged_answer self.old.house self.old.state call }
        ensures after { self.new ≡ performed (R.shares self.old.rule) self.old call }
        ensures held { Holds self.old.house self.old.state }
    {
        match (self.tables.stage, call) {
            (_, Call::Read { room, reading }) => self.note_reading(room, reading),
            (_, Call::Bill { room }) => self.tell_bill(room),
            (_, Call::Balance { room }) => self.tell_balance(room),
            (Stage::Taking, Call::Close { total, common }) => self.close_period(total, common),
            (Stage::Taking, Call::Correct { room, reading }) => self.hold_correction(room, reading),
            (Stage::Taking, Call::Book { .. } | Call::Withdraw { .. }) => Err(Reason::SlipMismatch),
            (Stage::Correcting { .. }, Call::Close { .. } | Call::Correct { .. }) => Err(
                Reason::CorrectionOpen,
            ),
            (Stage::Correcting { place, reading }, Call::Book { house, period }) =>
                self.book_correction(place, reading, house, period),
            (Stage::Correcting { .. }, Call::Withdraw { house, period }) => self.drop_correction(
                house, period,
            ),
        }
    }
}
