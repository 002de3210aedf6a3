use heat_account::ROOMS;
use tables::Table;

// What an accepted event brings to print.
#[derive(Drop)]
pub(crate) enum Outcome {
    Noted,
    Closed,
    // The change of each room's bill by a correction, however it ended.
    Changed(Table<i64, ROOMS>),
    Balanced,
}
