// A floor: its height above the base in decimetres, and its weight in tenths of a kilonewton.
#[derive(Clone, Copy, Default)]
pub struct Floor {
    pub height: u16,
    pub weight: u32,
}
