// What an account shows of all rooms, in the order of the house.
ghost use Rattle.std.specs.Prelude.{◌≡◌, List};
ghost use Rattle.heat_account.specs.Kept.{Holds};
ghost use Rattle.heat_account.specs.Ledger.{balances, latest_bills, ledger_after, Stands};
ghost use Rattle.heat_account.specs.declared.call.Call.{Call};

use crate::Account;
use billing::bill::Bill;
use house::room::Room;
use sharing::rule::Sharing;

impl<R: Sharing> Account<R> {
    // What an invariant says is known only where a field is used, so it is promised here too.
    pub fn rooms(&self) -> &[Room]
        ensures value { result.now ≡ self.now.house.rooms }
        ensures held { Holds self.now.house self.now.state }
    {
        self.house.rooms()
    }

    // The own heat and common share of each room in the period last closed.
    pub fn bills(&self) -> &[Bill]
        ensures value { result.now ≡ self.now.state.bills }
        ensures ledger { (calls : List Call) → Stands (R.shares self.now.rule) self.now.house self.now.state calls → result.now ≡ latest_bills (R.shares self.now.rule) self.now.house (ledger_after (R.shares self.now.rule) self.now.house calls).closed }
    {
        self.tables.bills.as_slice()
    }

    // The sum of all figures in the bills of each room.
    pub fn balances(&self) -> &[u64]
        ensures value { result.now ≡ self.now.state.balances }
        ensures ledger { (calls : List Call) → Stands (R.shares self.now.rule) self.now.house self.now.state calls → result.now ≡ balances (R.shares self.now.rule) self.now.house (ledger_after (R.shares self.now.rule) self.now.house calls).closed }
    {
        self.tables.balances.as_slice()
    }
}
