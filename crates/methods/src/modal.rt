// The modal method.
ghost use Rattle.std.specs.Prelude.{◌≡◌, ◌≤◌, not, ◌&&◌, ◌==◌};
ghost use Rattle.formulas.specs.Modal.{modal_weights};
ghost use Rattle.methods.specs.ModalRuns.{ModalAnswers};
ghost use Rattle.methods.specs.Views.{floors_in, modes_in};

use crate::base::base_shear_of;
use crate::motion::Motion;
use crate::outcome::{Outcome, outcome_of};
use crate::scale::Scale;
use crate::shapes::Shapes;
use crate::storeys::Modal;
use base_shear::shaking::Shaking;
use combination::Rule;
use spectra::spectrum::Spectrum;
use standard::fault::{Fault, Ground};

// Shears and forces by the modal method, or why it cannot be used.
pub fn run_modal<C: Spectrum, R: Rule>(
    shaking: &Shaking<'_, C>,
    rule: &R,
    shapes: &Shapes<'_>,
) -> Result<Outcome, Fault>
    ensures { ModalAnswers shaking.now.site.now.terms (C.Spectrum.ordinate shaking.now.spectrum.now) (R.Rule.squared rule.now) (floors_in shapes.now) (modes_in shapes.now) result }
{
    let code = base_shear_of(shaking, &shapes.loads)?;
    let weight = participating_weight(shapes);
    if (10 * weight as u64) < 9 * shapes.loads.weight as u64 {
        return Err(Ground::ModalWeightShort.at(weight));
    }
    let modal = Modal {
        shaking,
        rule,
        shapes,
    };
    let shears = modal.combined_shears();
    let combined = shears.as_slice();
    if is_still(combined[0], code.value) {
        return Err(Ground::NoCombinedShear.at(0));
    }
    let scale = Scale {
        base: combined[0],
        code,
    };
    Ok(outcome_of(combined, scale))
}

// The modal weights of the first storey over all modes.
fn participating_weight(shapes: &Shapes<'_>) -> u32
    ensures is { result ≡ modal_weights (floors_in shapes.now) (modes_in shapes.now) }
    ensures small { result ≤ 6480000 }
{
    let mut sum: u32 = 0;
    for row in shapes.rows {
        let motion = Motion::of(&shapes.loads, row);
        sum += motion.modal_weight(0).unsigned_abs();
    }
    sum
}

// Whether the modes give no shear at the base where the code gives some.
fn is_still(combined: u32, code: u64) -> bool
    ensures { result ≡ (combined == 0 && not (code == 0)) }
{
    combined == 0 && code != 0
}
