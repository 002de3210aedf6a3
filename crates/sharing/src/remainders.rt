ghost use Rattle.std.specs.Prelude.{◌≡◌, ◌-◌, ◌≤◌, length, codes, sum};
ghost use Rattle.sharing.specs.Remainders.{floors, rests, remainders};
ghost use Rattle.sharing.specs.Cutoff.{above, Cut, unit, spared};
ghost use Rattle.sharing.specs.RemainderLaws.{given, remainders_fair, remainders_titled};

use crate::claims::Claims;
use crate::rule::Sharing;
use fault::refusal::Fault;

// Each claimant gets its part rounded down; the units left over go one each to the largest remainders, the earlier first among equals.
#[derive(Clone, Copy, PartialEq, Eq, Debug, Default)]
pub struct Remainders;

// Writes each claimant's remainder, and tells the units left over.
// The place stands beside the claims and not in them: claims are copied, a place is written to.
fn write_rests(pot: &Claims, place: &mut [u32]) -> u32
    requires { length place.old ≡ length pot.now.weights.now }
    ensures left { result ≡ pot.now.total - sum (floors pot.now.total (sum pot.now.weights.now) pot.now.weights.now) }
    ensures after { place.new ≡ rests pot.now.total (sum pot.now.weights.now) pot.now.weights.now }
{
    let mut left = pot.total;
    // By index: a proof knows nothing of what a zip over `iter_mut` has written.
    for (i, weight) in pot.weights.iter().enumerate() {
        left -= pot.floor(*weight);
        place[i] = pot.rest(*weight);
    }
    left
}

// A sum in the width of the remainders: `filter` and `count` would branch at each and count in words twice as wide.
fn count_above(rests: &[u32], limit: u32) -> u32
    requires { length rests.now ≤ 256 }
    ensures { result ≡ above limit rests.now }
{
    rests.iter().map(|rest| u32::from(*rest > limit)).sum()
}

// The remainder that parts those who get one of the units left over from those who do not, by halving; none is above `most`.
#[tactic(auto, using(crate::specs::Cutoffs::at_least_none))]
fn find_cutoff(rests: &[u32], left: u32, most: u32) -> u32
    requires few { length rests.now ≤ 256 }
    requires takers { left ≤ length rests.now }
    requires bound { above most rests.now ≡ 0 }
    ensures { Cut left result rests.now }
{
    // std's `partition_point` halves a slice, and no range of numbers.
    let mut low = 0;
    let mut high = most;
    while low < high {
        let middle = low.midpoint(high);
        if count_above(rests, middle) <= left {
            high = middle;
        } else {
            low = middle + 1;
        }
    }
    low
}

// Who gets the units left over: all above the cutoff, and of those at it as many as units are spare.
#[derive(Drop)]
struct OddUnits {
    cutoff: u32,
    spare: u32,
}

impl OddUnits {
    // The odd unit of the next claimant, 1 or 0: the earlier first among equals.
    fn next(&mut self, rest: u32) -> u32
        ensures value { result ≡ unit self.old.cutoff self.old.spare rest }
        ensures cutoff { self.new.cutoff ≡ self.old.cutoff }
        ensures spare { self.new.spare ≡ spared self.old.cutoff self.old.spare rest }
    {
        if rest != self.cutoff {
            return u32::from(rest > self.cutoff);
        }
        let some = self.spare > 0;
        if some {
            self.spare -= 1;
        }
        u32::from(some)
    }
}

// Writes each claimant's share.
fn write_shares(pot: &Claims, mut odd: OddUnits, place: &mut [u32])
    requires { length place.old ≡ length pot.now.weights.now }
    ensures { place.new ≡ given pot.now.total (sum pot.now.weights.now) odd.cutoff odd.spare pot.now.weights.now }
{
    // By index, as in `write_rests`.
    for (i, weight) in pot.weights.iter().enumerate() {
        place[i] = pot.floor(*weight) + odd.next(pot.rest(*weight));
    }
}

// Fills the place, which is as long as the weights and holds the remainders on the way.
fn spread(pot: &Claims, place: &mut [u32])
    requires { length place.old ≡ length pot.now.weights.now }
    ensures { place.new ≡ remainders pot.now.total pot.now.weights.now }
{
    let left = write_rests(pot, place);
    let cutoff = find_cutoff(place, left, pot.all);
    let spare = left - count_above(place, cutoff);
    write_shares(pot, OddUnits { cutoff, spare }, place);
}

impl Sharing for Remainders {
    ghost shares = { λ _. remainders };

    ghost titled = { λ _. codes "remainders" };

    ghost fair = { λ rule. remainders_fair };

    ghost named = { λ rule. remainders_titled };

    // Both rules have these lines: shared, they would need a contract on `spread` that is longer.
    fn share(&self, total: u32, weights: &[u32], place: &mut [u32]) -> Result<(), Fault> {
        let pot = Claims::admit(total, weights, place.len())?;
        spread(&pot, &mut place[..weights.len()]);
        Ok(())
    }

    fn title(&self) -> &str {
        "remainders"
    }
}
