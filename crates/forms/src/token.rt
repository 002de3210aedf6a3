ghost use Rattle.std.specs.Prelude.{◌≡◌};
ghost use Rattle.forms.specs.Place.{figure_of, place_of};

use fault::place::Place;

// An item of a line, as a part of the text that it was read from. Lines and columns count from 1.
#[derive(Clone, Copy)]
pub enum Token<'a> {
    Word {
        letters: &'a [u8],
        line: usize,
        column: usize,
    },
    Number {
        digits: &'a [u8],
        value: u32,
        line: usize,
        column: usize,
    },
}

impl Token<'_> {
    // The number that was read; a word is none, and counts as 0.
    // A 0 and no `Option`: readers ask it of what they have read as a number.
    pub fn value(self) -> u32
        ensures { result ≡ (figure_of self.entry).value }
    {
        match self {
            Token::Word { .. } => 0,
            Token::Number { value, .. } => value,
        }
    }

    pub fn place(self) -> Place
        ensures { result ≡ place_of self.entry }
    {
        match self {
            Token::Word { line, column, .. } | Token::Number { line, column, .. } => Place::Text {
                line,
                column,
            },
        }
    }
}
