// What each event of a season does to an account, and what is printed for it.
#![tactic(auto)]

mod correcting;
mod outcome;
pub mod performing;
#[cfg(test)]
mod tests;
