// The program over its streams: a house and its season from standard input, and what is printed for them.
#![tactic(auto)]

pub mod opening;
pub mod season;
#[cfg(test)]
mod tests;
