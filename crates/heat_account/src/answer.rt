// What an accepted call answers.
#[derive(Clone, Copy, PartialEq, Eq, Debug)]
pub enum Answer {
    Done,
    // So many periods are closed.
    Closed(u32),
    // The numbers of the slip that a correction hands out.
    Corrected { house: u32, period: u32 },
    // Own heat and common share.
    Billed(u32, u32),
    Balanced(u64),
}
