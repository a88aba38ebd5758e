// The floors as they move in one mode.
ghost use Rattle.std.specs.Prelude.{◌≡◌, ◌+◌, true, length};
ghost use Rattle.base_shear.specs.Accelerations.{acceleration_of};
ghost use Rattle.formulas.specs.Modal.{L, M, modal_weight_of, modal_shear_of};
ghost use Rattle.methods.specs.Shapes.{mode_by, mode_of, usable};

use crate::loads::Loads;
use crate::modes::ModeRow;
use base_shear::shaking::Shaking;
use rounding::{Divisor, nearest_signed_quotient};
use spectra::spectrum::Spectrum;
use standard::measures::Period;

// The floors with the ordinates of a mode that they can move in, one for each, and its period.
#[derive(Clone, Copy)]
pub(crate) struct Motion<'a> {
    loads: Loads<'a>,
    period: Period,
    ordinates: &'a [i16],
    ghost fit: { usable (length loads.floors.now) (mode_by period.value ordinates.now) ≡ true },
}

impl<'a> Motion<'a> {
    // The motion in the mode of a row.
    pub(crate) fn of(loads: &Loads<'a>, row: &'a ModeRow) -> Motion<'a>
        requires { usable (length loads.now.floors.now) (mode_of (length loads.now.floors.now) row.now) ≡ true }
        ensures floors { result.loads.floors.now ≡ loads.now.floors.now }
        ensures mode { mode_by result.period.value result.ordinates.now ≡ mode_of (length loads.now.floors.now) row.now }
    {
        Motion {
            loads: *loads,
            period: Period { value: row.period },
            ordinates: &row.ordinates[..loads.floors.len()],
        }
    }

    // The sum of weight × ordinate over the floors from place `from` on.
    fn lever_sum(&self, from: usize) -> i64
        ensures { result ≡ L self.now.loads.floors.now self.now.ordinates.now (from + 1) }
    {
        let start = from.min(self.loads.floors.len());
        let floors = &self.loads.floors[start..];
        let ordinates = &self.ordinates[start..];
        let mut sum: i64 = 0;
        for (floor, ordinate) in floors.iter().zip(ordinates) {
            sum += floor.weight as i64 * *ordinate as i64;
        }
        sum
    }

    // The sum of weight × ordinate squared over all floors.
    fn moved_mass(&self) -> u64
        ensures { result ≡ M self.now.loads.floors.now self.now.ordinates.now }
    {
        let mut sum: u64 = 0;
        for (floor, ordinate) in self.loads.floors.iter().zip(self.ordinates) {
            let size = ordinate.unsigned_abs() as u64;
            sum += floor.weight as u64 * (size * size);
        }
        sum
    }

    // The modal weight of the storey at place `storey`, from 0.
    pub(crate) fn modal_weight(&self, storey: usize) -> i32
        ensures { result ≡ modal_weight_of self.now.loads.floors.now self.now.ordinates.now (storey + 1) }
    {
        let product = self.lever_sum(0) * self.lever_sum(storey);
        let mass = Divisor {
            value: self.moved_mass(),
        };
        nearest_signed_quotient(product, mass) as i32
    }

    // The modal shear of the storey at place `storey`, from 0.
    pub(crate) fn modal_shear<C: Spectrum>(&self, shaking: &Shaking<'_, C>, storey: usize) -> i32
        ensures { result ≡ modal_shear_of (acceleration_of shaking.now.site.now.terms (C.Spectrum.ordinate shaking.now.spectrum.now) self.now.period.value) self.now.loads.floors.now self.now.ordinates.now (storey + 1) }
    {
        let a = shaking.acceleration(self.period);
        let weight = self.modal_weight(storey);
        let over = Divisor {
            value: a.denominator as u64,
        };
        nearest_signed_quotient(a.numerator as i64 * weight as i64, over) as i32
    }
}
