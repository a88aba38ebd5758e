// What is asked of a sheet.
use crate::modes::ModeShape;

#[derive(Clone, Copy)]
pub enum Call {
    Floor { height: u16, weight: u32 },
    Reweigh { floor: u8, weight: u32 },
    Mode { shape: ModeShape },
    Strike { mode: u8 },
    Static,
    Modal,
}
