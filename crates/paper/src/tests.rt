use crate::reading::read_paper;
use fault::place::Place;
use std::test::Fail;

// Number, layer, line and column of the fault in a paper.
fn fault_in(paper: &[u8]) -> Option<(u8, u8, usize, usize)> {
    let fault = read_paper(paper).err()?;
    match fault.place {
        Place::Text { line, column } => Some((fault.number(), fault.layer.number(), line, column)),
        _ => Some((fault.number(), fault.layer.number(), 0, 0)),
    }
}

// A first line, and the fault in it.
const FIRST_LINES: [(&str, (u8, u8, usize, usize)); 13] = [
    ("", (2, 1, 1, 1)),
    ("(house 7 (remainder 3000))\n", (2, 1, 2, 1)),
    ("(room 1 (metered 5000))\n", (1, 1, 1, 2)),
    ("(house 07 (remainder 3000))\n", (1, 1, 1, 9)),
    ("(house 1234567890 (stated 5))\n", (1, 1, 1, 17)),
    ("(house 7  (stated 5))\n", (1, 1, 1, 10)),
    ("(house 7 (started 5))\n", (1, 1, 1, 14)),
    ("(house 7 (remainder 3000)\n", (1, 1, 1, 26)),
    ("(house 7 (remainder 3000))", (1, 1, 1, 27)),
    ("(house 0 (stated 500))\n", (3, 1, 1, 8)),
    ("(house 8 (stated 101))\n", (3, 1, 1, 18)),
    ("(house 1000000 (stated 5))\n", (3, 1, 1, 8)),
    ("\n", (1, 1, 1, 1)),
];

// Lines behind `(house 7 (remainder 3000))`, and the fault in them.
const ROOM_LINES: [(&str, Option<(u8, u8, usize, usize)>); 16] = [
    ("\n", Some((1, 1, 2, 1))),
    ("(room 1 (metred 5000))\n", Some((1, 1, 2, 13))),
    ("(room 1 (plain 5000 12))\n", Some((1, 1, 2, 20))),
    ("(room 1 (detached 5000))\n", Some((1, 1, 2, 23))),
    ("(room 1 (plain 5000)) \n", Some((1, 1, 2, 22))),
    ("(room 1 (plain 0))\n", Some((3, 1, 2, 16))),
    ("(room 0 (plain 0))\n", Some((3, 1, 2, 7))),
    ("(room 1 (detached 5 100000001))\n", Some((3, 1, 2, 21))),
    ("(room 1 (detached 5000 12))\n", Some((6, 2, 2, 10))),
    (
        "(room 1 (plain 5000))\n(room 1 (plain 6000))\n",
        Some((5, 2, 3, 7)),
    ),
    (
        "(room 2 (plain 5000))\n(room 1 (detached 1 1))\n",
        Some((5, 2, 3, 7)),
    ),
    (
        "(room 1 (plain 5000))\n(room 2 (plain 99992001))\n",
        Some((7, 2, 3, 16)),
    ),
    ("(room 1 (plain 5000))\n(room 2 (plain 99992000))\n", None),
    (
        "(room 1 (plain 5000))\n(room 2 (plain 6000))",
        Some((1, 1, 3, 22)),
    ),
    ("(room 1 (plain 5000))\r\n", Some((1, 1, 2, 22))),
    ("(room 1 (plain 5000))\n\n", Some((1, 1, 3, 1))),
];

#[test]
fn first_lines(rt: HostRuntime) {
    for (line, expected) in FIRST_LINES.iter() {
        assert_eq!(rt; fault_in(line.as_bytes()), Some(*expected));
    }
}

#[test]
fn room_lines(rt: HostRuntime) -> Result<(), Fail> {
    for (lines, expected) in ROOM_LINES.iter() {
        let mut paper = String::from_str(rt.alloc(), "(house 7 (remainder 3000))\n")?;
        paper.push_str(lines)?;
        assert_eq!(rt; fault_in(paper.as_bytes()), *expected);
    }
    Ok(())
}

// The 256th room is taken, and the 257th is not, whatever else is wrong with it.
#[test]
fn many_rooms(rt: HostRuntime) -> Result<(), Fail> {
    let mut paper = String::from_str(rt.alloc(), "(house 9 (stated 0))\n")?;
    for number in 1..257 {
        writeln!(paper, "(room {number} (plain 1))")?;
    }
    assert_eq!(rt; fault_in(paper.as_bytes()), None);
    paper.push_str("(room 1 (plain 100000000))\n")?;
    assert_eq!(rt; fault_in(paper.as_bytes()), Some((4, 2, 258, 1)));
    Ok(())
}
