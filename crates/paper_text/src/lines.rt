// The lines of a paper, in the order in which they stand.
ghost use Rattle.std.specs.Prelude.{◌≡◌, ◌≤◌, ◌++◌, length, true};
ghost use Rattle.house.specs.declared.room.Kind.TheVariants.{Detached};
ghost use Rattle.house.specs.Plan.{lawful};
ghost use Rattle.paper_text.specs.Page.{Put};
ghost use Rattle.paper_text.specs.Text.{house_line, kind_text, method_text, paper_text, room_line, room_lines, written};

use crate::page::Page;
use house::House;
use house::method::Method;
use house::room::{Kind, Room};

// What ends a line, after its last number.
const CLOSING: &[u8] = b"))\n";

// Here and in `put_kind` a match: each case is a form of its own, and a closure in its place would need the match too.
fn put_method(page: &mut Page, method: Method)
    ensures { Put (method_text method) page.old page.new }
{
    match method {
        Method::Remainder { common_area } => page.put_framed(b"remainder ", common_area, CLOSING),
        Method::Stated { floor_percent } => page.put_framed(b"stated ", floor_percent, CLOSING),
    }
}

fn put_house_line(page: &mut Page, number: u32, method: Method)
    ensures { Put (house_line number method) page.old page.new }
{
    page.put_framed(b"(house ", number, b" (");
    put_method(page, method);
}

fn put_detached(page: &mut Page, area: u32, pipe: u32)
    ensures { Put (kind_text (Detached pipe) area) page.old page.new }
{
    page.put(b"detached ");
    page.put_number(area);
    page.put_framed(b" ", pipe, CLOSING);
}

fn put_kind(page: &mut Page, kind: Kind, area: u32)
    ensures { Put (kind_text kind area) page.old page.new }
{
    match kind {
        Kind::Metered => page.put_framed(b"metered ", area, CLOSING),
        Kind::Plain => page.put_framed(b"plain ", area, CLOSING),
        Kind::Detached { pipe } => put_detached(page, area, pipe),
    }
}

fn put_room(page: &mut Page, room: Room)
    ensures { Put (room_line room) page.old page.new }
{
    page.put_framed(b"(room ", room.number, b" (");
    put_kind(page, room.kind, room.area);
}

fn put_rooms(page: &mut Page, rooms: &[Room])
    ensures { Put (room_lines rooms.now) page.old page.new }
{
    for room in rooms {
        put_room(page, *room);
    }
}

// Puts a whole paper at the front of the buffer, and gives its length.
fn put_paper(buffer: &mut [u8], number: u32, method: Method, rooms: &[Room]) -> usize
    requires { lawful number method rooms.now ≡ true }
    ensures value { result ≡ length (house_line number method ++ room_lines rooms.now) }
    ensures after { result ≤ length buffer.old → buffer.new ≡ written (house_line number method ++ room_lines rooms.now) buffer.old }
{
    let mut page = Page::new(buffer);
    put_house_line(&mut page, number, method);
    put_rooms(&mut page, rooms);
    page.len()
}

// The same of a house's own paper. Apart, since what the invariant of a house says is known through its calls alone.
pub(crate) fn put_house(buffer: &mut [u8], house: &House) -> usize
    ensures value { result ≡ length (paper_text house.now) }
    ensures after { result ≤ length buffer.old → buffer.new ≡ written (paper_text house.now) buffer.old }
{
    put_paper(buffer, house.number(), house.method(), house.rooms())
}
