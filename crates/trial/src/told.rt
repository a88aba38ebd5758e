// What is told of a call. Calls are counted from 1.
use standard::fault::{Fault, Layer};

// A refusal as it is told; none is a layer of no known name.
#[derive(Clone, Copy)]
pub struct Refusal {
    pub layer: Option<Layer>,
    pub number: u64,
    pub place: u64,
}

// That a call was refused, that the storeys after it are told of, or what one of them reads: combined shear, design shear and force.
#[derive(Clone, Copy)]
pub enum Told {
    Refused {
        call: u64,
        refusal: Refusal,
    },
    Storeys {
        call: u64,
    },
    Storey {
        call: u64,
        storey: u8,
        reading: (u64, u64, i64),
    },
}

impl Refusal {
    // Whether this tells of that fault.
    pub fn is(&self, fault: &Fault) -> bool {
        self.layer == Some(fault.ground.layer())
            && self.number == fault.ground.number() as u64
            && self.place == fault.place as u64
    }
}
