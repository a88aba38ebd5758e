// The seven values of a site as they are handed in, in the order in which they are looked at.
#[derive(Clone, Copy, PartialEq, Eq, Debug)]
pub struct SiteValues {
    pub zone: u8,
    pub soil: u8,
    pub importance: u8,
    pub system: u8,
    pub formula: u8,
    pub plan: u8,
    pub base: u16,
}
