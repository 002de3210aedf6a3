// A text as lines, each with its end; the last may lack it.
ghost use Rattle.std.specs.Prelude.{◌≡◌, ◌≤◌, length, ◌==◌};
ghost use Rattle.std.specs.Iterator.{YieldsFirstRef, item_count};
ghost use Rattle.forms.specs.Lines.{lines, line_length};

use std::marker::Model;

const LINE_END: u8 = 10;

pub fn ends_line(byte: u8) -> bool
    ensures { result ≡ (byte == 10) }
{
    byte == LINE_END
}

// How many bytes the first line has, its end among them. A length has no type that could say of which text.
pub fn line_length(text: &[u8]) -> usize
    ensures value { result ≡ line_length text.now }
    ensures within { result ≤ length text.now }
{
    match text.iter().position(|byte| ends_line(*byte)) {
        Some(end) => end + 1,
        None => text.len(),
    }
}

// The lines that are still to come.
#[derive(Drop)]
pub struct Lines<'a> {
    text: &'a [u8],
}

impl<'a> Model for Lines<'a> {
    ghost use Rattle.std.specs.Prelude.{ℕ, List};
    ghost use Rattle.forms.specs.Lines.{lines};

    ghost Value = { List (List ℕ) };

    ghost view = { λ l. lines l.text.now };
}

impl<'a> Lines<'a> {
    pub fn new(text: &'a [u8]) -> Lines<'a>
        ensures { result ≡ lines text.now }
    {
        Lines { text }
    }
}

impl<'a> Iterator for Lines<'a> {
    type Item = &'a [u8];

    ghost next_gives = { YieldsFirstRef (λ lines. lines) };

    ghost remaining = { item_count (λ lines. lines) };

    fn next(&mut self) -> Option<&'a [u8]> {
        if self.text.is_empty() {
            return None;
        }
        let (line, others) = self.text.split_at(line_length(self.text));
        self.text = others;
        Some(line)
    }
}
