use crate::event::{Ending, Event};
use crate::reading::read_event;

#[test]
fn each_form_is_read(rt: HostRuntime) {
    let (room, reading) = (12, 0);
    assert_eq!(rt;
        read_event(b"(read 12 0)"),
        Some(Event::Read { room, reading })
    );
    let total = 999_999_999;
    let common = None;
    assert_eq!(rt;
        read_event(b"(close 999999999)"),
        Some(Event::Close { total, common })
    );
    let common = Some(30);
    assert_eq!(rt;
        read_event(b"(close 999999999 30)"),
        Some(Event::Close { total, common })
    );
    let ending = Ending::Book;
    assert_eq!(rt;
        read_event(b"(correct 12 0 book)"),
        Some(Event::Correct {
            room,
            reading,
            ending,
        })
    );
    let ending = Ending::Withdraw;
    assert_eq!(rt;
        read_event(b"(correct 12 0 withdraw)"),
        Some(Event::Correct {
            room,
            reading,
            ending,
        })
    );
    assert_eq!(rt; read_event(b"(balance)"), Some(Event::Balance));
}

#[test]
fn any_other_line_says_nothing(rt: HostRuntime) {
    let lines: [&[u8]; 9] = [
        b"",
        b"(close)",
        b"(close 1 2 3)",
        b"(read 1 007)",
        b"(read 1 1234567890)",
        b"(read 1  2)",
        b"(correct 1 2 keep)",
        b"(correct 1 2 boo)",
        b"(balance) ",
    ];
    for line in lines {
        assert_eq!(rt; read_event(line), None);
    }
}
