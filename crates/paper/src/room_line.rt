// A line of a paper that brings a room.
ghost use Rattle.std.specs.Prelude.{◌≡◌};
ghost use Rattle.forms.specs.Form.{follow};
ghost use Rattle.forms.specs.Place.{on_line, mark, line_says};
ghost use Rattle.std.specs.Option.{option_map};
ghost use Rattle.paper.specs.Items.{described_seen, place_in};
ghost use Rattle.paper.specs.Lines.{room_form, kind_form};

use crate::figures::{open_line, read_detached, read_figure};
use fault::place::Place;
use forms::cursor::Cursor;
use forms::misread::Misread;
use forms::token::Token;
use house::room::{Kind, Room};

// What the line says, and where. A room that is not detached has its pipe figure nowhere.
#[derive(Clone, Copy)]
pub(crate) struct RoomLine {
    pub(crate) room: Room,
    pub(crate) number_at: Place,
    pub(crate) kind_at: Place,
    pub(crate) area_at: Place,
    pub(crate) pipe_at: Place,
}

// What the line says of its room beside the number.
#[derive(Clone, Copy)]
pub(crate) struct Described<'a> {
    pub(crate) kind: Kind,
    pub(crate) area: Token<'a>,
    pub(crate) pipe: Option<Token<'a>>,
}

// A match on the first byte, as the project asks.
fn read_kind<'a>(cursor: Cursor<'a>) -> Result<Described<'a>, Misread>
    ensures { let at = mark cursor.entry.line in described_seen result ≡ line_says (kind_form (λ kind s pipe. (kind, at s, option_map at pipe))) cursor.entry }
{
    match cursor.rest() {
        [b'm', ..] => {
            let area = read_figure(cursor, b"metered ")?;
            Ok(Described {
                kind: Kind::Metered,
                area,
                pipe: None,
            })
        }
        [b'p', ..] => {
            let area = read_figure(cursor, b"plain ")?;
            Ok(Described {
                kind: Kind::Plain,
                area,
                pipe: None,
            })
        }
        [b'd', ..] => {
            let (area, pipe) = read_detached(cursor)?;
            Ok(Described {
                kind: Kind::Detached { pipe: pipe.value() },
                area,
                pipe: Some(pipe),
            })
        }
        _ => Err(cursor.misread()),
    }
}

fn place_of(figure: Option<Token>) -> Place
    ensures { result ≡ place_in figure.entry }
{
    figure.map_or(Place::Nowhere, |token| token.place())
}

// Refused, it tells from where the line has no lawful form.
pub(crate) fn read_room_line(text: &[u8], line: usize) -> Result<RoomLine, Misread>
    ensures { result ≡ on_line line (follow (room_form line) 1 text.now) }
{
    let mut cursor = Cursor::new(text, line);
    let number = open_line(&mut cursor, b"(room ")?;
    let kind_at = cursor.place();
    let said = read_kind(cursor)?;
    Ok(RoomLine {
        room: Room {
            number: number.value(),
            area: said.area.value(),
            kind: said.kind,
        },
        number_at: number.place(),
        kind_at,
        area_at: said.area.place(),
        pipe_at: place_of(said.pipe),
    })
}
