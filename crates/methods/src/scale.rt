// The code base shear, and what it makes of combined shears.
ghost use Rattle.std.specs.Prelude.{◌≡◌, ◌<◌, ◌≤◌};
ghost use Rattle.formulas.specs.Modal.{design_shear as design_shear_of};

use rounding::{Divisor, nearest_quotient};

// A code base shear, which is never above 720,000.
#[derive(Clone, Copy)]
pub(crate) struct BaseShear {
    pub(crate) value: u64,
    ghost low: { value ≤ 720000 },
}

// The scale of design shears: a combined base shear, beside the code base shear up to which it is raised.
#[derive(Clone, Copy)]
pub(crate) struct Scale {
    pub(crate) base: u32,
    pub(crate) code: BaseShear,
    ghost moves: { base < code.value → 1 ≤ base },
}

impl Scale {
    // The design shear of a combined shear: scaled up to the code base shear where the combined one is the smaller.
    pub(crate) fn design_shear(&self, combined: u32) -> u64
        ensures { result ≡ design_shear_of self.now.code.value self.now.base combined }
    {
        let base = self.base as u64;
        let code = self.code.value;
        if base >= code {
            return combined as u64;
        }
        nearest_quotient(combined as u64 * code, Divisor { value: base })
    }
}
