ghost use Rattle.std.specs.Prelude.{◌≡◌};
ghost use Rattle.fault.specs.Numbers.{number, layer};

use crate::layer::Layer;

// Why a call is refused, in the order of the numbers.
#[derive(Clone, Copy, PartialEq, Eq, Debug)]
pub enum Reason {
    // The writer of a house paper.
    MalformedLine = 1,
    NoRoomLine = 2,
    NumberOutOfRange = 3,
    TooManyRooms = 4,
    RoomNotAscending = 5,
    KindNotTaken = 6,
    AreasTooLarge = 7,
    // The meter reader.
    UnknownRoom = 11,
    NotMetered = 12,
    ReadingTooLarge = 13,
    // The closer of a period.
    CorrectionOpen = 21,
    PeriodsFull = 22,
    FigureTooLarge = 23,
    CommonFigure = 24,
    ReadingsAboveTotal = 25,
    RestUnclaimed = 26,
    // The corrector.
    NothingClosed = 31,
    SlipMismatch = 32,
    // The caller of a sharing.
    PlaceTooShort = 41,
    SharingTooLarge = 42,
    NoWeight = 43,
    // The printer.
    BufferTooShort = 51,
    InputTooLong = 52,
}

impl Reason {
    pub fn number(self) -> u8
        ensures { result ≡ number self }
    {
        // A discriminant is read by `as`: `From<Reason>` would be this line in an impl that nobody asks for.
        self as u8
    }

    // The layer that gives this reason, unless the one that refuses says otherwise.
    pub fn layer(self) -> Layer
        ensures { result ≡ layer self }
    {
        match self {
            Reason::MalformedLine
            | Reason::NoRoomLine
            | Reason::NumberOutOfRange
            | Reason::BufferTooShort
            | Reason::InputTooLong => Layer::Paper,
            Reason::TooManyRooms
            | Reason::RoomNotAscending
            | Reason::KindNotTaken
            | Reason::AreasTooLarge => Layer::House,
            Reason::UnknownRoom
            | Reason::NotMetered
            | Reason::ReadingTooLarge
            | Reason::CorrectionOpen
            | Reason::PeriodsFull
            | Reason::FigureTooLarge
            | Reason::CommonFigure
            | Reason::ReadingsAboveTotal
            | Reason::RestUnclaimed
            | Reason::NothingClosed
            | Reason::SlipMismatch => Layer::Account,
            Reason::PlaceTooShort | Reason::SharingTooLarge | Reason::NoWeight => Layer::Sharing,
        }
    }
}
