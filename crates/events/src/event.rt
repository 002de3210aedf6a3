// How a correction ends.
#[derive(Clone, Copy, PartialEq, Eq, Debug)]
pub enum Ending {
    Book,
    Withdraw,
}

// What is asked of an account. A number may be one that the account refuses.
#[derive(Clone, Copy, PartialEq, Eq, Debug)]
pub enum Event {
    Read {
        room: u32,
        reading: u32,
    },
    Close {
        total: u32,
        common: Option<u32>,
    },
    Correct {
        room: u32,
        reading: u32,
        ending: Ending,
    },
    Balance,
}
