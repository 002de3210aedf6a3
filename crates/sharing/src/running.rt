ghost use Rattle.std.specs.Prelude.{◌≡◌, ◌+◌, ◌-◌, ◌*◌, ◌/◌, ◌≤◌, length, codes, sum};
ghost use Rattle.sharing.specs.Running.{running};
ghost use Rattle.sharing.specs.RunningLaws.{running_fair, running_titled};

use crate::claims::Claims;
use crate::rule::Sharing;
use fault::refusal::Fault;

// Each claimant gets what falls to all up to it, less what falls to all before it.
#[derive(Clone, Copy, PartialEq, Eq, Debug, Default)]
pub struct Running;

// How far the weights have run, and what falls to all of them so far.
#[derive(Drop)]
struct RunningSum {
    passed: u32,
    fallen: u32,
}

impl RunningSum {
    // The share of the next claimant.
    fn next(&mut self, pot: &Claims, weight: u32) -> u32
        requires within { self.old.passed + weight ≤ sum pot.now.weights.now }
        requires rises { self.old.fallen ≤ pot.now.total * (self.old.passed + weight) / sum pot.now.weights.now }
        ensures value { result ≡ pot.now.total * (self.old.passed + weight) / sum pot.now.weights.now - self.old.fallen }
        ensures passed { self.new.passed ≡ self.old.passed + weight }
        ensures fallen { self.new.fallen ≡ pot.now.total * (self.old.passed + weight) / sum pot.now.weights.now }
    {
        let before = self.fallen;
        self.passed += weight;
        self.fallen = pot.floor(self.passed);
        self.fallen - before
    }
}

// The place stands beside the claims, as in `remainders`.
// Fills the place, which is as long as the weights.
#[tactic(auto, using(crate::specs::Totals::sum_front_le, crate::specs::Parts::rising))]
fn spread(pot: &Claims, place: &mut [u32])
    requires { length place.old ≡ length pot.now.weights.now }
    ensures { place.new ≡ running pot.now.total pot.now.weights.now }
{
    let mut run = RunningSum {
        passed: 0,
        fallen: 0,
    };
    // By index: a proof knows nothing of what a zip over `iter_mut` has written.
    for (i, weight) in pot.weights.iter().enumerate() {
        place[i] = run.next(pot, *weight);
    }
}

impl Sharing for Running {
    ghost shares = { λ _. running };

    ghost titled = { λ _. codes "running" };

    ghost fair = { λ rule. running_fair };

    ghost named = { λ rule. running_titled };

    // Both rules have these lines: shared, they would need a contract on `spread` that is longer.
    fn share(&self, total: u32, weights: &[u32], place: &mut [u32]) -> Result<(), Fault> {
        let pot = Claims::admit(total, weights, place.len())?;
        spread(&pot, &mut place[..weights.len()]);
        Ok(())
    }

    fn title(&self) -> &str {
        "running"
    }
}
