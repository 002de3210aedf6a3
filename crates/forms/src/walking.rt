// Reading a line item by item.
ghost use Rattle.std.specs.Prelude.{◌≡◌, IfOk};
ghost use Rattle.forms.specs.Place.{seen, on_line, read_on, bytes_of, spot_place, word_read, word_left, number_read, number_left, end_read, numeral};

use crate::cursor::Cursor;
use crate::misread::Misread;
use crate::reading::{front, numeral_at, value_of};
use crate::token::Token;
use fault::place::Place;

impl<'a> Cursor<'a> {
    pub fn new(text: &'a [u8], line: usize) -> Cursor<'a>
        ensures { result ≡ record { line = line; column = 1; rest = text.now } }
    {
        Cursor { text, at: 0, line }
    }

    // What is left of the line.
    pub fn rest(&self) -> &'a [u8]
        ensures { result.now ≡ self.now.rest }
    {
        let (_, rest) = self.text.split_at(self.at);
        rest
    }

    // The column of the next byte, or one past the last.
    pub fn column(&self) -> usize
        ensures { result ≡ self.now.column }
    {
        self.at + 1
    }

    // Where the next byte stands, or would.
    pub fn place(&self) -> Place
        ensures { result ≡ spot_place self.now }
    {
        let (line, column) = (self.line, self.column());
        Place::Text { line, column }
    }

    // That the line is lawful up to here, and not with the next byte.
    // Apart from `place`: where a text goes on is no refusal yet, and a place is one of three kinds.
    pub fn misread(&self) -> Misread
        ensures { result ≡ record { line = self.now.line; column = self.now.column } }
    {
        let (line, column) = (self.line, self.column());
        Misread { line, column }
    }

    // Reads just these bytes. Refused, it tells the first byte that is another, and stays.
    pub fn word(&mut self, word: &[u8]) -> Result<Token<'a>, Misread>
        ensures value { seen result ≡ read_on self.old.line (word_read self.old word.now) }
        ensures bytes { IfOk result (λ t. bytes_of t ≡ word.now) }
        ensures after { self.new ≡ word_left self.old word.now }
    {
        let rest = self.rest();
        let same = front(word, rest);
        if same < word.len() {
            return Err(Misread {
                line: self.line,
                column: self.column() + same,
            });
        }
        let token = Token::Word {
            letters: &rest[..same],
            line: self.line,
            column: self.column(),
        };
        self.at += same;
        Ok(token)
    }

    // Reads a number. Refused, it tells where, and stays.
    pub fn number(&mut self) -> Result<Token<'a>, Misread>
        ensures value { seen result ≡ read_on self.old.line (number_read self.old) }
        ensures bytes { IfOk result (λ t. bytes_of t ≡ numeral self.old.rest) }
        ensures after { self.new ≡ number_left self.old }
    {
        let rest = self.rest();
        let digits = &rest[..numeral_at(rest)];
        if digits.is_empty() {
            return Err(self.misread());
        }
        let token = Token::Number {
            digits,
            value: value_of(digits),
            line: self.line,
            column: self.column(),
        };
        self.at += digits.len();
        Ok(token)
    }

    // That nothing is left to read.
    pub fn end(&self) -> Result<(), Misread>
        ensures { result ≡ on_line self.now.line (end_read self.now) }
    {
        if self.rest().is_empty() {
            Ok(())
        } else {
            Err(self.misread())
        }
    }
}
