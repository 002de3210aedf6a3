// What a correction changes while it is open.
ghost use Rattle.std.specs.Prelude.{◌≡◌, ◌≤◌, length, pos, slice_index_or, IfOk, Ok};
ghost use Rattle.heat_account.specs.Judged.{and_then, if_correcting, place_of};
ghost use Rattle.heat_account.specs.Kept.{Holds};
ghost use Rattle.heat_account.specs.Changes.{change, each_change, changes, changes_told, change_told, Moves, Evens};
ghost use Rattle.heat_account.specs.declared.stage.Stage.TheVariants.{Correcting};

use crate::Account;
use crate::pairing::zip_with;
use crate::stage::Stage;
use crate::tables_of::ROOMS;
use billing::bill::{Bill, total};
use fault::place::Place;
use fault::reason::Reason;
use fault::refusal::Fault;
use sharing::rule::Sharing;
use tables::Table;

// The new bill less the old one.
fn change_between(old: Bill, new: Bill) -> i64
    ensures { result ≡ change old new }
{
    total(new).cast_signed() - total(old).cast_signed()
}

fn change_each(old: &[Bill], new: &[Bill]) -> Table<i64, ROOMS>
    requires long { length new.now ≡ length old.now }
    requires few { length old.now ≤ 256 }
    ensures { result ≡ each_change old.now new.now }
{
    zip_with(old, new, change_between)
}

impl<R: Sharing> Account<R> {
    fn corrected_changes(&self, place: usize, reading: u32) -> Table<i64, ROOMS>
        requires { self.now.state.stage ≡ Correcting place reading }
        ensures value { result ≡ changes (R.shares self.now.rule) self.now.house self.now.state }
        ensures long { length result ≡ length self.now.house.rooms }
    {
        let corrected = self.corrected_bills(place, reading);
        change_each(self.tables.bills.as_slice(), corrected.as_slice())
    }

    // Works the corrected period out, once for all rooms.
    // `held` hands on what the invariant says, which is known only where a field is used.
    fn work_changes(&self) -> Result<Table<i64, ROOMS>, Reason>
        ensures value { result ≡ if_correcting self.now.state (Ok (changes (R.shares self.now.rule) self.now.house self.now.state)) }
        ensures held { Holds self.now.house self.now.state }
        ensures long { IfOk result (λ t. length t ≡ length self.now.house.rooms) }
    {
        match self.tables.stage {
            Stage::Taking => Err(Reason::SlipMismatch),
            Stage::Correcting { place, reading } => Ok(self.corrected_changes(place, reading)),
        }
    }

    // The change of each room's bill by the correction that is open, in the order of the house.
    pub fn changes(&self) -> Result<Table<i64, ROOMS>, Fault>
        ensures value { result ≡ changes_told (R.shares self.now.rule) self.now.house self.now.state }
        ensures moves { Moves (R.shares self.now.rule) self.now.house self.now.state }
        ensures evens { Evens (R.shares self.now.rule) self.now.house self.now.state }
    {
        self.work_changes()
            .map_err(|reason| Fault::new(reason, Place::Nowhere))
    }

    fn work_change(&self, room: u32) -> Result<i64, Reason>
        ensures { result ≡ and_then (if_correcting self.now.state (place_of self.now.house room)) (λ place. Ok (slice_index_or (changes (R.shares self.now.rule) self.now.house self.now.state) place (pos 0))) }
    {
        let changes = self.work_changes()?;
        let place = self.place(room)?;
        Ok(changes.as_slice()[place])
    }

    // The change of one room's bill by the correction that is open.
    pub fn change(&self, room: u32) -> Result<i64, Fault>
        ensures value { result ≡ change_told (R.shares self.now.rule) self.now.house self.now.state room }
    {
        self.work_change(room)
            .map_err(|reason| Fault::new(reason, Place::Room(room)))
    }
}
