// Lines of text that follow a form: words and numbers, each with its place.
#![tactic(auto)]

pub mod cursor;
pub mod lines;
pub mod misread;
mod reading;
pub mod token;
mod walking;
