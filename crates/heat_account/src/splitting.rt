// A room's last bill as booked, shared among holders.
ghost use Rattle.std.specs.Prelude.{◌≡◌};
ghost use Rattle.heat_account.specs.Split.{figures_of, split_told, split_held};

use crate::Account;
use fault::place::Place;
use fault::refusal::Fault;
use sharing::rule::Sharing;

impl<R: Sharing> Account<R> {
    // Own heat and common share of a room's last bill together.
    fn look_up_figures(&self, room: u32) -> Result<u32, Fault>
        ensures { result ≡ figures_of self.now.house self.now.state room }
    {
        let (own, common) = self
            .look_up_bill(room)
            .map_err(|reason| Fault::new(reason, Place::Room(room)))?;
        // Not `total`, which is wider than what is shared.
        Ok(own + common)
    }

    // Writes each holder's share of a room's last bill to the front of the place, by stake and the account's rule.
    // The place is the caller's, as that of a rule.
    pub fn split(&self, room: u32, stakes: &[u32], place: &mut [u32]) -> Result<(), Fault>
        ensures value { result ≡ split_told (figures_of self.now.house self.now.state room) stakes.now place.old }
        ensures after { place.new ≡ split_held (R.shares self.now.rule) (figures_of self.now.house self.now.state room) stakes.now place.old }
    {
        let total = self.look_up_figures(room)?;
        self.rule.share(total, stakes, place)
    }
}
