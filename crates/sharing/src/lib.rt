// Sharing a total of whole units among claimants by weight.
#![tactic(auto)]

mod claims;
pub mod paid;
pub mod pot;
pub mod remainders;
pub mod rule;
pub mod running;
mod sums;
