// The calls on an account.
ghost use Rattle.std.specs.Prelude.{◌≡◌, ℕ, ◌+◌, true, [], length, slice_index, slice_index_or};
ghost use Rattle.house.specs.Plan.{lawful};
ghost use Rattle.heat_account.specs.State.{no_state};
ghost use Rattle.heat_account.specs.Judged.{answer, performed, result_of, told};
ghost use Rattle.heat_account.specs.Carried.{Goes, Carries, answer_of, with_slip, slip_answer};
ghost use Rattle.heat_account.specs.declared.answer.Answer.TheVariants.{Done, Closed, Corrected, Billed, Balanced};
ghost use Rattle.heat_account.specs.declared.call.Call.TheVariants.{Read, Close, Correct, Book, Withdraw, Bill, Balance};

use crate::Account;
use crate::answer::Answer;
use crate::call::Call;
use crate::slip::Slip;
use crate::tables_of::Tables;
use billing::bill::Bill;
use fault::place::Place;
use fault::refusal::Fault;
use house::House;
use sharing::rule::Sharing;

impl<R: Sharing> Account<R> {
    // Uses the house up, and gives its account with no period closed.
    // That the house is lawful is known only where a field of it is used, so it is promised here too.
    pub fn open(house: House, rule: R) -> Account<R>
        ensures value { result ≡ record { house = house; rule = rule; state = no_state (length house.rooms) } }
        ensures ledger { Goes (R.shares rule) house result.state [] }
        ensures lawful { lawful house.number house.method house.rooms ≡ true }
    {
        let tables = Tables::of(&house);
        Account {
            house,
            rule,
            tables,
        }
    }

    // The own heat and common share of a room in the period last closed.
    pub fn bill(&self, room: u32) -> Result<Bill, Fault>
        ensures value { result ≡ result_of self.now.house self.now.state (Bill room) (λ place. slice_index_or self.now.state.bills place (0, 0)) }
        ensures ledger { Carries (R.shares self.now.rule) self.now.house self.now.state (Bill room) (answer_of (λ b. Billed b.0 b.1) result) self.now.state }
    {
        self.look_up_bill(room)
            .map_err(|reason| Fault::new(reason, Place::Room(room)))
    }

    // The sum of all figures in the bills of a room.
    pub fn balance(&self, room: u32) -> Result<u64, Fault>
        ensures value { result ≡ result_of self.now.house self.now.state (Balance room) (λ place. slice_index self.now.state.balances place) }
        ensures ledger { Carries (R.shares self.now.rule) self.now.house self.now.state (Balance room) (answer_of Balanced result) self.now.state }
    {
        self.look_up_balance(room)
            .map_err(|reason| Fault::new(reason, Place::Room(room)))
    }

    // Makes one call, whatever it is: what it does depends on the stage together with the call.
    pub fn perform(&mut self, call: Call) -> Result<Answer, Fault>
        ensures value { result ≡ answer self.old.house self.old.state call }
        ensures after { self.new ≡ performed (R.shares self.old.rule) self.old call }
        ensures ledger { Carries (R.shares self.old.rule) self.old.house self.old.state call result self.new.state }
    {
        let place = call.named();
        self.act(call).map_err(|reason| Fault::new(reason, place))
    }

    // Sets or replaces a room's reading for the open period.
    pub fn read(&mut self, room: u32, reading: u32) -> Result<(), Fault>
        ensures value { result ≡ result_of self.old.house self.old.state (Read room reading) (λ _. tt) }
        ensures after { self.new ≡ performed (R.shares self.old.rule) self.old (Read room reading) }
        ensures ledger { Carries (R.shares self.old.rule) self.old.house self.old.state (Read room reading) (answer_of (λ _. Done) result) self.new.state }
    {
        self.perform(Call::Read { room, reading })?;
        Ok(())
    }

    // Closes the open period, and tells how many are closed.
    pub fn close(&mut self, total: u32, common: Option<u32>) -> Result<u32, Fault>
        ensures value { result ≡ result_of self.old.house self.old.state (Close total common) (λ _. self.old.state.closed + 1) }
        ensures after { self.new ≡ performed (R.shares self.old.rule) self.old (Close total common) }
        ensures ledger { Carries (R.shares self.old.rule) self.old.house self.old.state (Close total common) (answer_of Closed result) self.new.state }
    {
        // `perform` has one type for the answers of all calls.
        match self.perform(Call::Close { total, common })? {
            Answer::Closed(periods) => Ok(periods),
            _ => unreachable(),
        }
    }

    // Works the last closed period out again with a late reading, and hands out the slip that ends the correction.
    pub fn correct(&mut self, room: u32, reading: u32) -> Result<Slip, Fault>
        ensures value { result ≡ result_of self.old.house self.old.state (Correct room reading) (λ _. record { house = self.old.house.number; period = self.old.state.closed }) }
        ensures after { self.new ≡ performed (R.shares self.old.rule) self.old (Correct room reading) }
        ensures ledger { Carries (R.shares self.old.rule) self.old.house self.old.state (Correct room reading) (answer_of (λ slip. Corrected slip.house slip.period) result) self.new.state }
    {
        match self.perform(Call::Correct { room, reading })? {
            Answer::Corrected { house, period } => Ok(Slip::new(house, period)),
            _ => unreachable(),
        }
    }

    // Puts the corrected bills and reading in place. A refused slip comes back.
    pub fn book(&mut self, slip: Slip) -> Result<(), (Fault, Slip)>
        ensures value { result ≡ with_slip (result_of self.old.house self.old.state (Book slip.house slip.period) (λ _. tt)) slip }
        ensures after { self.new ≡ performed (R.shares self.old.rule) self.old (Book slip.house slip.period) }
        ensures ledger { Carries (R.shares self.old.rule) self.old.house self.old.state (Book slip.house slip.period) (slip_answer result) self.new.state }
    {
        let call = Call::Book {
            house: slip.house(),
            period: slip.period(),
        };
        self.end(call, slip)
    }

    // Drops the correction. A refused slip comes back. Apart from `book` in its call alone, over the one `end`.
    pub fn withdraw(&mut self, slip: Slip) -> Result<(), (Fault, Slip)>
        ensures value { result ≡ with_slip (result_of self.old.house self.old.state (Withdraw slip.house slip.period) (λ _. tt)) slip }
        ensures after { self.new ≡ performed (R.shares self.old.rule) self.old (Withdraw slip.house slip.period) }
        ensures ledger { Carries (R.shares self.old.rule) self.old.house self.old.state (Withdraw slip.house slip.period) (slip_answer result) self.new.state }
    {
        let call = Call::Withdraw {
            house: slip.house(),
            period: slip.period(),
        };
        self.end(call, slip)
    }

    // The pair of a fault and a slip is what a refusal gives back; a struct would say no more.
    // Ends a correction by a call that answers nothing more: accepted, it spends the slip.
    fn end(&mut self, call: Call, slip: Slip) -> Result<(), (Fault, Slip)>
        requires { (i : ℕ) → told self.old.house self.old.state call i ≡ Done }
        ensures value { result ≡ with_slip (result_of self.old.house self.old.state call (λ _. tt)) slip }
        ensures after { self.new ≡ performed (R.shares self.old.rule) self.old call }
        ensures ledger { Carries (R.shares self.old.rule) self.old.house self.old.state call (slip_answer result) self.new.state }
    {
        if let Err(fault) = self.perform(call) {
            return Err((fault, slip));
        }
        slip.spend();
        Ok(())
    }
}
