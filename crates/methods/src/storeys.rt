// The modal shears of each storey, and what the rule makes of them.
ghost use Rattle.std.specs.Prelude.{◌≡◌, ℕ, ◌+◌, ◌<◌, ◌≤◌, length, slice_index};
ghost use Rattle.base_shear.specs.Accelerations.{acceleration_of};
ghost use Rattle.formulas.specs.Modal.{storey_values_of};
ghost use Rattle.methods.specs.ModalRuns.{modal_combined};
ghost use Rattle.methods.specs.Outcomes.{shears_up_to};
ghost use Rattle.methods.specs.Views.{floors_in, modes_in};

use crate::loads::FLOORS;
use crate::modes::MODES;
use crate::motion::Motion;
use crate::shapes::Shapes;
use arrayvec::ArrayVec;
use base_shear::shaking::Shaking;
use combination::{Response, Responses, Rule, combined_at_most_sum};
use spectra::spectrum::Spectrum;

// What shakes a building, the modes in which it moves, and the rule that combines them.
#[derive(Clone, Copy)]
pub(crate) struct Modal<'a, C, R> {
    pub(crate) shaking: &'a Shaking<'a, C>,
    pub(crate) rule: &'a R,
    pub(crate) shapes: &'a Shapes<'a>,
}

impl<'a, C: Spectrum, R: Rule> Modal<'a, C, R> {
    // The modal shears of the storey at place `storey`, from 0, each with its period: what the rule is given.
    fn storey_values(&self, storey: usize) -> ArrayVec<Response, MODES>
        ensures { result.items ≡ storey_values_of (acceleration_of self.now.shaking.now.site.now.terms (C.Spectrum.ordinate self.now.shaking.now.spectrum.now)) (floors_in self.now.shapes.now) (modes_in self.now.shapes.now) (storey + 1) }
    {
        let mut values = ArrayVec::new();
        for row in self.shapes.rows {
            let motion = Motion::of(&self.shapes.loads, row);
            values.push(Response {
                period: row.period,
                value: motion.modal_shear(self.shaking, storey),
            });
        }
        values
    }

    // The combined shear of the storey at place `storey`, from 0.
    fn combined_shear(&self, storey: usize) -> u32
        ensures is { result ≡ modal_combined self.now.shaking.now.site.now.terms (C.Spectrum.ordinate self.now.shaking.now.spectrum.now) (R.Rule.squared self.now.rule.now) (floors_in self.now.shapes.now) (modes_in self.now.shapes.now) (storey + 1) }
        ensures small { result ≤ 6480000 }
    {
        let values = self.storey_values(storey);
        let list = Responses {
            items: values.as_slice(),
        };
        combined_at_most_sum(self.rule, list)
    }

    // The combined shear of each storey.
    pub(crate) fn combined_shears(&self) -> ArrayVec<u32, FLOORS>
        ensures are { result.items ≡ shears_up_to (modal_combined self.now.shaking.now.site.now.terms (C.Spectrum.ordinate self.now.shaking.now.spectrum.now) (R.Rule.squared self.now.rule.now) (floors_in self.now.shapes.now) (modes_in self.now.shapes.now)) (length (floors_in self.now.shapes.now)) }
        ensures small { (k : ℕ) → k < length result.items → slice_index result.items k ≤ 6480000 }
    {
        let shapes = self.shapes;
        let mut shears = ArrayVec::new();
        for i in 0..shapes.loads.floors.len() {
            shears.push(self.combined_shear(i));
        }
        shears
    }
}
