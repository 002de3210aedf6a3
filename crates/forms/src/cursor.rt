use std::marker::Model;

// A line that is being read: the text, and how many of its bytes are read already.
#[derive(Drop)]
pub struct Cursor<'a> {
    pub(crate) text: &'a [u8],
    // A place and no rest alone: columns count from the front of the text.
    pub(crate) at: usize,
    pub(crate) line: usize,
}

impl<'a> Model for Cursor<'a> {
    ghost use Rattle.std.specs.Prelude.{◌+◌, ◌≤◌, length, drop};
    ghost use Rattle.forms.specs.Place.{Spot};

    ghost Value = { Spot };

    ghost view = { λ c. record { line = c.line; column = c.at + 1; rest = drop c.at c.text.now } };

    ghost invariant = { λ c. c.at ≤ length c.text.now };
}
