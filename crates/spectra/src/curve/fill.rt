ghost use Rattle.std.specs.Prelude.{◌≡◌, ◌≤◌, true, [], ◌∷◌, length, is_ok, is_err};
ghost use Rattle.standard.specs.Faults.{verdict};
ghost use Rattle.spectra.specs.Curves.{steps_of};
ghost use Rattle.spectra.specs.Spectra.{curve_refusals, site_curve, thousandths_at, is_good_after};
ghost use Rattle.std.proofs.Common.{arith};
ghost use Rattle.spectra.specs.CurvesLemmas.{answered};

use super::{SiteCurve, Step};
use crate::spectrum::Spectrum;
use fixed_list::FixedList;
use standard::fault::{Fault, Ground};
use standard::fraction::Fraction;
use standard::measures::Period;

const WHOLE: Step = Step {
    upper: 4000,
    thousandths: 2500,
};

impl SiteCurve {
    // One step of 2500 thousandths up to the period 4000.
    pub fn new() -> SiteCurve
        ensures { steps_of result ≡ (record { upper = 4000; thousandths = 2500 } ∷ []) }
    {
        SiteCurve {
            steps: FixedList::from_slice(&[WHOLE]).unwrap(),
        }
    }

    // Replaces all steps, or names the first bad one and leaves the curve as it was.
    pub fn fill(&mut self, steps: &[Step]) -> Result<(), Fault>
        ensures answer { result ≡ verdict (curve_refusals steps.now) }
        ensures filled { is_ok result ≡ true → steps_of self.new ≡ steps.now }
        ensures kept { is_err result ≡ true → self.new ≡ self.old }
    {
        let held = FixedList::from_slice(steps).ok_or(Ground::SiteCurveStep.at(0))?;
        judge_steps(steps)?;
        *self = SiteCurve { steps: held };
        Ok(())
    }
}

impl Spectrum for SiteCurve {
    ghost ordinate = { λ s t. site_curve (steps_of s) t };

    ghost lawful = { λ s t p q. let h = answered (steps_of s) 0 t s.good s.whole p q in (h.0, omega arith, omega arith, omega arith) };

    fn at(&self, period: Period) -> Fraction {
        Fraction {
            numerator: u32::from(value_at(self.steps.as_slice(), period.value)),
            denominator: 1000,
        }
    }
}

// Whether a step can follow one of the upper period `before`.
fn good_after(before: u16, step: Step) -> bool
    ensures { result ≡ is_good_after before step }
{
    before < step.upper && (1..=8000).contains(&step.thousandths)
}

// Whether the steps make a curve.
fn judge_steps(steps: &[Step]) -> Result<(), Fault>
    requires { length steps.now ≤ 32 }
    ensures { result ≡ verdict (curve_refusals steps.now) }
{
    if steps.is_empty() {
        return Err(Ground::SiteCurveStep.at(0));
    }
    let mut before = 0;
    for (i, step) in steps.iter().enumerate() {
        if !good_after(before, *step) {
            return Err(Ground::SiteCurveStep.at(i as u32 + 1));
        }
        before = step.upper;
    }
    if before != 4000 {
        return Err(Ground::SiteCurveStep.at(steps.len() as u32));
    }
    Ok(())
}

// The thousandths of the first step whose upper period is at least this; 0 where there is none.
fn value_at(steps: &[Step], milliseconds: u16) -> u16
    ensures { result ≡ thousandths_at steps.now milliseconds }
{
    // by its place: a search for the step itself takes a quarter longer
    let Some(place) = steps.iter().position(|step| milliseconds <= step.upper) else {
        return 0;
    };
    steps[place].thousandths
}
