// The paper of a house: its text form, read line by line.
#![tactic(auto)]

mod checking;
mod figures;
mod heading;
pub mod reading;
mod room_line;
#[cfg(test)]
mod tests;
