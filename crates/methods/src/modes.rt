// A mode as a sheet keeps it.
use crate::loads::FLOORS;

// No sheet has more modes.
pub const MODES: usize = 9;

// A period, and places for ordinates, of which those of the floors that are there count.
#[derive(Clone, Copy, Default)]
pub struct ModeRow {
    pub period: u16,
    pub ordinates: [i16; FLOORS],
}
