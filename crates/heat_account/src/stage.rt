// Whether a correction of the last closed period is open.
#[derive(Clone, Copy)]
// No `Option`: the two stages are what a call is matched with.
pub enum Stage {
    Taking,
    // The place of the room in the house, and its late reading.
    Correcting { place: usize, reading: u32 },
}
