// Where a refusal stands: at a room or in a text, and nowhere where neither was named.
// No `Option` of a place: nowhere is a place that prints, as 0.
#[derive(Clone, Copy, PartialEq, Eq, Debug)]
pub enum Place {
    Nowhere,
    Room(u32),
    // Both count from 1.
    Text { line: usize, column: usize },
}
