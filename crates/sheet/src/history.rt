// A sheet from a list of calls.
ghost use Rattle.sheet.specs.Answers.{Answers, Staged};
ghost use Rattle.sheet.specs.Faultless.{Faultless};
ghost use Rattle.sheet.specs.Histories.{asked, ledger_of};

use crate::call::Call;
use crate::sheet::Sheet;
use base_shear::shaking::Shaking;
use combination::Rule;
use spectra::spectrum::Spectrum;
use standard::fault::Fault;

// One call on a sheet.
pub fn perform<C: Spectrum, R: Rule>(
    sheet: &mut Sheet,
    shaking: &Shaking<'_, C>,
    rule: &R,
    call: &Call,
) -> Result<(), Fault>
    ensures answers { Answers sheet.old (asked shaking.now.site.now.terms (C.Spectrum.ordinate shaking.now.spectrum.now) (R.Rule.squared rule.now) call.now) result sheet.new }
    ensures staged { Staged (asked shaking.now.site.now.terms (C.Spectrum.ordinate shaking.now.spectrum.now) (R.Rule.squared rule.now) call.now) result sheet.new }
{
    match call {
        Call::Floor { height, weight } => sheet.floor(*height, *weight),
        Call::Reweigh { floor, weight } => sheet.reweigh(*floor, *weight),
        Call::Mode { shape } => sheet.mode(shape),
        Call::Strike { mode } => sheet.strike(*mode),
        Call::Static => sheet.run_static(shaking),
        Call::Modal => sheet.run_modal(shaking, rule),
    }
}

// What an empty sheet becomes by the calls in their order; what is refused is passed over.
pub fn run<C: Spectrum, R: Rule>(shaking: &Shaking<'_, C>, rule: &R, calls: &[Call]) -> Sheet
    ensures { Faultless result (ledger_of shaking.now.site.now.terms (C.Spectrum.ordinate shaking.now.spectrum.now) (R.Rule.squared rule.now) calls.now) }
{
    let mut sheet = Sheet::new();
    for call in calls {
        let _ = perform(&mut sheet, shaking, rule, call);
    }
    sheet
}
