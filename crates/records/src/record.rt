use standard::values::SiteValues;

// What a record says. A mode's ordinates stay the bytes that they are written in.
#[derive(Clone, Copy)]
pub enum Record<'a> {
    Site {
        values: SiteValues,
    },
    Floor {
        height: u16,
        weight: u32,
    },
    Reweigh {
        floor: u8,
        weight: u32,
    },
    Mode {
        period: u16,
        count: u8,
        ordinates: &'a [u8],
    },
    Strike {
        mode: u8,
    },
    Static,
    Modal {
        rule: u8,
    },
}
