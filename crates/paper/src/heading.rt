// The first line of a paper.
ghost use Rattle.std.specs.Prelude.{◌≡◌};
ghost use Rattle.forms.specs.Form.{follow};
ghost use Rattle.forms.specs.Place.{on_line, mark, line_says};
ghost use Rattle.paper.specs.Items.{method_seen};
ghost use Rattle.paper.specs.Lines.{house_form, method_form};

use crate::figures::{open_line, read_figure};
use fault::place::Place;
use forms::cursor::Cursor;
use forms::misread::Misread;
use forms::token::Token;
use house::method::Method;

// What the line says, and where its numbers stand.
#[derive(Clone, Copy)]
pub(crate) struct Heading {
    pub(crate) number: u32,
    pub(crate) method: Method,
    pub(crate) number_at: Place,
    pub(crate) figure_at: Place,
}

// The method, and the figure that it was read with. A match on the first byte, as the project asks.
fn read_method<'a>(cursor: Cursor<'a>) -> Result<(Method, Token<'a>), Misread>
    ensures { method_seen result ≡ line_says (method_form (λ m x. (m, mark cursor.entry.line x))) cursor.entry }
{
    match cursor.rest() {
        [b'r', ..] => {
            let area = read_figure(cursor, b"remainder ")?;
            let common_area = area.value();
            Ok((Method::Remainder { common_area }, area))
        }
        [b's', ..] => {
            let percent = read_figure(cursor, b"stated ")?;
            let floor_percent = percent.value();
            Ok((Method::Stated { floor_percent }, percent))
        }
        _ => Err(cursor.misread()),
    }
}

// Refused, it tells from where the line has no lawful form.
// A text and its line number pass side by side: they are the two parts of a cursor, which is made here.
pub(crate) fn read_heading(text: &[u8], line: usize) -> Result<Heading, Misread>
    ensures { result ≡ on_line line (follow (house_form line) 1 text.now) }
{
    let mut cursor = Cursor::new(text, line);
    let number = open_line(&mut cursor, b"(house ")?;
    let (method, figure) = read_method(cursor)?;
    Ok(Heading {
        number: number.value(),
        method,
        number_at: number.place(),
        figure_at: figure.place(),
    })
}
