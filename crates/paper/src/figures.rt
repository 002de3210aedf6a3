// The halves of a line: a word with its number, and in brackets a word with its figures.
ghost use Rattle.std.specs.Prelude.{◌≡◌, OnOk};
ghost use Rattle.forms.specs.Place.{seen, read_on, mark, line_says};
ghost use Rattle.paper.specs.Lines.{figure_form, detached_form};
ghost use Rattle.paper.specs.Items.{pair_seen, open_read, open_left};

use forms::cursor::Cursor;
use forms::misread::Misread;
use forms::token::Token;

// Reads a line's word, its number and the bracket behind it, and gives the number.
pub(crate) fn open_line<'a>(cursor: &mut Cursor<'a>, word: &[u8]) -> Result<Token<'a>, Misread>
    ensures value { seen result ≡ read_on cursor.old.line (open_read cursor.old word.now) }
    ensures after { OnOk result (cursor.new ≡ open_left cursor.old word.now) }
{
    cursor.word(word)?;
    let number = cursor.number()?;
    cursor.word(b" (")?;
    Ok(number)
}

// Reads a word, a number and the end of the line, and gives the number.
pub(crate) fn read_figure<'a>(mut cursor: Cursor<'a>, word: &[u8]) -> Result<Token<'a>, Misread>
    ensures { seen result ≡ line_says (figure_form word.now (mark cursor.entry.line)) cursor.entry }
{
    cursor.word(word)?;
    let figure = cursor.number()?;
    cursor.word(b"))\n")?;
    cursor.end()?;
    Ok(figure)
}

// Reads what a detached room has: its area and its pipe figure.
pub(crate) fn read_detached<'a>(mut cursor: Cursor<'a>) -> Result<(Token<'a>, Token<'a>), Misread>
    ensures { let at = mark cursor.entry.line in pair_seen result ≡ line_says (detached_form (λ s t. (at s, at t))) cursor.entry }
{
    cursor.word(b"detached ")?;
    let area = cursor.number()?;
    let pipe = read_figure(cursor, b" ")?;
    Ok((area, pipe))
}
