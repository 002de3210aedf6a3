// The calls of a test, by their arguments.
use heat_account::call::Call;

pub(crate) fn read(room: u32, reading: u32) -> Call {
    Call::Read { room, reading }
}

pub(crate) fn close(total: u32, common: Option<u32>) -> Call {
    Call::Close { total, common }
}

pub(crate) fn correct(room: u32, reading: u32) -> Call {
    Call::Correct { room, reading }
}

pub(crate) fn book(house: u32, period: u32) -> Call {
    Call::Book { house, period }
}

pub(crate) fn withdraw(house: u32, period: u32) -> Call {
    Call::Withdraw { house, period }
}
