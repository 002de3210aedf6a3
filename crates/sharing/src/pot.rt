ghost use Rattle.std.specs.Prelude.{◌≡◌, Err, sum};
ghost use Rattle.fault.specs.Numbers.{fault_of};
ghost use Rattle.fault.specs.declared.place.Place.TheVariants.{Nowhere};
ghost use Rattle.sharing.specs.Refusal.{refusal, answer};

use crate::sums::sum_of;
use fault::place::Place;
use fault::reason::Reason;
use fault::refusal::Fault;

pub const MOST_CLAIMANTS: usize = 256;
// Of a total and of the sum of the weights; that the limit of areas is the same number is chance.
pub const MOST_UNITS: u32 = 100_000_000;

// A total, and the sum of the weights that it is shared by.
#[derive(Clone, Copy)]
pub struct Pot {
    pub total: u32,
    pub all: u32,
}

fn refuse(reason: Reason) -> Result<Pot, Fault>
    ensures { result ≡ Err (fault_of reason Nowhere) }
{
    Err(Fault::new(reason, Place::Nowhere))
}

impl Pot {
    // The pot of a sharing that no rule refuses, into a place for `room` shares.
    pub fn admit(total: u32, weights: &[u32], room: usize) -> Result<Pot, Fault>
        ensures { result ≡ answer (refusal total weights.now room) (record { total = total; all = sum weights.now }) }
    {
        if room < weights.len() {
            return refuse(Reason::PlaceTooShort);
        }
        if weights.len() > MOST_CLAIMANTS {
            return refuse(Reason::SharingTooLarge);
        }
        let all = sum_of(weights);
        if total > MOST_UNITS || all > u64::from(MOST_UNITS) {
            return refuse(Reason::SharingTooLarge);
        }
        if total > 0 && all == 0 {
            return refuse(Reason::NoWeight);
        }
        Ok(Pot {
            total,
            // It fits, as was just tested; `try_from` would bring a branch that is never taken.
            all: all as u32,
        })
    }
}
