ghost use Rattle.std.specs.Prelude.{◌≡◌, length, take, sum, OnOk};
ghost use Rattle.sharing.specs.Rule.{Modest};
ghost use Rattle.sharing.specs.Refusal.{refusal, answer, placed};

use crate::rule::Sharing;
use crate::sums::sum_of;
use fault::refusal::Fault;

// Shares under any rule, with what the rule's laws tell of the shares.
// Here and below the place is the caller's, as in the rule.
fn share_by_law<R: Sharing>(
    rule: &R,
    total: u32,
    weights: &[u32],
    place: &mut [u32],
) -> Result<(), Fault>
    ensures value { result ≡ answer (refusal total weights.now (length place.old)) tt }
    ensures after { place.new ≡ placed (refusal total weights.now (length place.old)) (R.shares rule.now total weights.now) place.old }
    ensures whole { OnOk result (sum (take (length weights.now) place.new) ≡ total) }
    ensures modest { Modest (R.shares rule.now) }
{
    rule.share(total, weights, place)
}

// Shares a total under any rule, and tells the sum of the shares, which is the total again.
pub fn share_out<R: Sharing>(
    rule: &R,
    total: u32,
    weights: &[u32],
    place: &mut [u32],
) -> Result<u64, Fault>
    ensures value { result ≡ answer (refusal total weights.now (length place.old)) total }
    ensures after { place.new ≡ placed (refusal total weights.now (length place.old)) (R.shares rule.now total weights.now) place.old }
    ensures modest { Modest (R.shares rule.now) }
{
    share_by_law(rule, total, weights, place)?;
    Ok(sum_of(&place[..weights.len()]))
}
