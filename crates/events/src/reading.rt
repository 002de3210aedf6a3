// Reading a line that says an event.
ghost use Rattle.std.specs.Prelude.{◌≡◌, Ok};
ghost use Rattle.std.specs.Result.{result_and};
ghost use Rattle.forms.specs.Place.{on_line, end_read};
ghost use Rattle.events.specs.Events.{event_of, said, reading_form, closing_form, correction_form, balance_form};

use crate::event::{Ending, Event};
use crate::items::{closing, correction, reading};
use forms::cursor::Cursor;
use forms::misread::Misread;

// The event that a line says, given without its line end, if it has one of the forms.
pub fn read_event(line: &[u8]) -> Option<Event>
    ensures { result ≡ event_of line.now }
{
    let mut cursor = Cursor::new(line, 1);
    // A word that is refused leaves the cursor where it was.
    let event = if cursor.word(b"(read ").is_ok() {
        read_reading(cursor)
    } else if cursor.word(b"(close ").is_ok() {
        read_closing(cursor)
    } else if cursor.word(b"(correct ").is_ok() {
        read_correction(cursor)
    } else {
        read_balance(cursor)
    };
    event.ok()
}

fn read_reading(mut cursor: Cursor) -> Result<Event, Misread>
    ensures { result ≡ on_line cursor.entry.line (said reading_form cursor.entry) }
{
    let room = cursor.number()?;
    cursor.word(b" ")?;
    let figure = cursor.number()?;
    cursor.word(b")")?;
    at_end(cursor, reading(room, figure))
}

fn read_closing(mut cursor: Cursor) -> Result<Event, Misread>
    ensures { result ≡ on_line cursor.entry.line (said closing_form cursor.entry) }
{
    let total = cursor.number()?;
    let common = if cursor.word(b" ").is_ok() {
        Some(cursor.number()?)
    } else {
        None
    };
    cursor.word(b")")?;
    at_end(cursor, closing(total, common))
}

fn read_correction(mut cursor: Cursor) -> Result<Event, Misread>
    ensures { result ≡ on_line cursor.entry.line (said correction_form cursor.entry) }
{
    let room = cursor.number()?;
    cursor.word(b" ")?;
    let figure = cursor.number()?;
    cursor.word(b" ")?;
    let ending = Ending::next(cursor.rest());
    cursor.word(ending.word())?;
    at_end(cursor, correction(room, figure, ending))
}

fn read_balance(mut cursor: Cursor) -> Result<Event, Misread>
    ensures { result ≡ on_line cursor.entry.line (said balance_form cursor.entry) }
{
    cursor.word(b"(balance)")?;
    at_end(cursor, Event::Balance)
}

// The event, if nothing follows it on its line.
fn at_end(cursor: Cursor, event: Event) -> Result<Event, Misread>
    ensures { result ≡ result_and (on_line cursor.entry.line (end_read cursor.entry)) (Ok event) }
{
    cursor.end().and(Ok(event))
}
