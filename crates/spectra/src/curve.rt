// A site's own curve, in steps.
ghost use Rattle.std.specs.Prelude.{◌≡◌, true};
ghost use Rattle.fixed_list.specs.Items.{items_of};
ghost use Rattle.spectra.specs.Spectra.{good_from, last_upper};

use fixed_list::FixedList;

mod fill;

// Up to its upper period, and above that of the step before, the curve has so many thousandths.
#[derive(Clone, Copy, PartialEq, Eq, Debug, Default)]
pub struct Step {
    pub upper: u16,
    pub thousandths: u16,
}

// 1 to 32 steps of rising upper periods, the last of 4000, each of 1 to 8000 thousandths.
#[derive(Clone, Copy)]
pub struct SiteCurve {
    steps: FixedList<Step, 32>,
    ghost good: { good_from 0 (items_of steps) ≡ true },
    ghost whole: { last_upper 0 (items_of steps) ≡ 4000 },
}
