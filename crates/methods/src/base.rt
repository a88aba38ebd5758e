// The code base shear of the floors that count.
ghost use Rattle.std.specs.Prelude.{◌≡◌};
ghost use Rattle.methods.specs.Loads.{roof_of};
ghost use Rattle.methods.specs.Outcomes.{BaseAnswers};

use crate::loads::Loads;
use crate::scale::BaseShear;
use base_shear::shaking::Shaking;
use spectra::spectrum::Spectrum;
use standard::fault::Fault;
use standard::measures::Height;

// The height of the roof floor.
pub(crate) fn roof_height(loads: &Loads<'_>) -> Height
    ensures { result.value ≡ roof_of loads.now.floors.now }
{
    let roof = loads.floors.last().unwrap();
    Height { value: roof.height }
}

// The nearest to A(Ta) × W, or that the period is too long.
pub(crate) fn base_shear_of<C: Spectrum>(
    shaking: &Shaking<'_, C>,
    loads: &Loads<'_>,
) -> Result<BaseShear, Fault>
    ensures { BaseAnswers shaking.now.site.now.terms (C.Spectrum.ordinate shaking.now.spectrum.now) loads.now.floors.now result }
{
    let value = shaking.code_base_shear(roof_height(loads), loads.weight)?;
    Ok(BaseShear { value })
}
