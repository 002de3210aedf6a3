ghost use Rattle.std.specs.Prelude.{◌≡◌, []};
ghost use Rattle.billing.specs.Pots as spec;
ghost use Rattle.billing.specs.Pots.{put_back, pot_shares, Shareable};

use crate::collecting::{PerRoom, fill};
use sharing::pot::MOST_CLAIMANTS;
use sharing::rule::Sharing;

// The weights of those with a claim.
fn gather(claims: &PerRoom<Option<u32>>, weights: &mut PerRoom<u32>)
    requires { weights.old ≡ [] }
    ensures { weights.new ≡ spec.weights claims.now }
{
    fill(weights, claims.as_slice().iter().filter_map(|claim| *claim));
}

// The next share to each with a claim, and nothing to the others.
fn put_back(claims: &PerRoom<Option<u32>>, shares: &[u32], all: &mut PerRoom<u32>)
    requires { all.old ≡ [] }
    ensures { all.new ≡ put_back claims.now shares.now }
{
    let mut left = shares.iter();
    // A loop: a closure would have to change the iterator that it takes the shares from.
    for claim in claims.as_slice() {
        let share = match claim {
            Some(_) => left.next().copied().unwrap_or(0),
            None => 0,
        };
        let _ = all.push(share);
    }
}

// Shares a pot among those with a claim to it.
pub(crate) fn share_pot<R: Sharing>(
    rule: &R,
    pot: u32,
    claims: &PerRoom<Option<u32>>,
) -> PerRoom<u32>
    requires { Shareable pot claims.now }
    ensures { result ≡ pot_shares (R.shares rule.now) pot claims.now }
{
    let mut weights = PerRoom::filled(0, 0);
    gather(claims, &mut weights);
    // An array and no table: a rule writes into a slice.
    let mut shares = [0; MOST_CLAIMANTS];
    match rule.share(pot, weights.as_slice(), &mut shares) {
        Ok(()) => {
            let mut all = PerRoom::filled(0, 0);
            put_back(claims, &shares[..weights.len()], &mut all);
            all
        }
        // A pot that can be shared is not refused.
        Err(_) => unreachable(),
    }
}
