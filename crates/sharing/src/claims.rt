ghost use Rattle.std.specs.Prelude.{◌≡◌, ◌*◌, ◌/◌, ◌%◌, ◌<◌, ◌≤◌, length, sum};
ghost use Rattle.sharing.specs.Refusal.{refusal, answer};

use crate::pot::Pot;
use fault::refusal::Fault;

// A pot that no rule refuses, and the weights that claim it. No Model: it borrows its weights, so a Model would forbid copies.
#[derive(Clone, Copy)]
pub(crate) struct Claims<'a> {
    pub(crate) total: u32,
    pub(crate) weights: &'a [u32],
    pub(crate) all: u32,
    ghost few: { length weights.now ≤ 256 },
    ghost small: { total ≤ 100000000 },
    ghost light: { all ≤ 100000000 },
    ghost summed: { all ≡ sum weights.now },
    ghost weighed: { 0 < total → 0 < all },
}

impl<'a> Claims<'a> {
    ghost use Rattle.sharing.specs.Accepted.{accepted};

    // The claims of a sharing into a place for `room` shares.
    pub(crate) fn admit(total: u32, weights: &'a [u32], room: usize) -> Result<Claims<'a>, Fault>
        ensures { accepted result ≡ answer (refusal total weights.now room) (record { total = total; weights = weights.now; all = sum weights.now }) }
    {
        let pot = Pot::admit(total, weights, room)?;
        Ok(Claims {
            total: pot.total,
            weights,
            all: pot.all,
        })
    }

    fn product(&self, weight: u32) -> u64
        ensures { result ≡ self.now.total * weight }
    {
        u64::from(self.total) * u64::from(weight)
    }

    // What falls to a weight, in whole units: none where nobody has a weight.
    fn part(&self, weight: u32) -> u64
        ensures { result ≡ self.now.total * weight / sum self.now.weights.now }
    {
        self.product(weight)
            .checked_div(u64::from(self.all))
            .unwrap_or(0)
    }

    // The whole units that fall to a weight of those that claim.
    #[tactic(auto, using(crate::specs::Parts::capped))]
    // Here and in `rest`, `as` narrows what a proof shows to fit; `try_from` would bring a branch that is never taken.
    pub(crate) fn floor(&self, weight: u32) -> u32
        requires { weight ≤ sum self.now.weights.now }
        ensures { result ≡ self.now.total * weight / sum self.now.weights.now }
    {
        self.part(weight) as u32
    }

    // What the whole units leave of a weight's part, over the sum of the weights.
    pub(crate) fn rest(&self, weight: u32) -> u32
        requires { weight ≤ sum self.now.weights.now }
        ensures { result ≡ self.now.total * weight % sum self.now.weights.now }
    {
        self.product(weight)
            .checked_rem(u64::from(self.all))
            .unwrap_or(0) as u32
    }
}
