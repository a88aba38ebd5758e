// The static method.
ghost use Rattle.std.specs.Prelude.{◌≡◌, ◌*◌, length};
ghost use Rattle.formulas.specs.Static.{S, static_shear};
ghost use Rattle.methods.specs.Outcomes.{shears_up_to, StaticAnswers};
ghost use Rattle.methods.specs.Refusals.{static_limit_of};

use crate::base::{base_shear_of, roof_height};
use crate::loads::{FLOORS, Loads};
use crate::outcome::{Outcome, outcome_of};
use crate::scale::{BaseShear, Scale};
use arrayvec::ArrayVec;
use base_shear::shaking::Shaking;
use formulas::floor::Floor;
use rounding::{Divisor, nearest_quotient};
use spectra::spectrum::Spectrum;
use standard::fault::{Fault, Ground};
use standard::terms::{Plan, Zone};

// Shears and forces by the static method, or why it cannot be used.
pub fn run_static<C: Spectrum>(
    shaking: &Shaking<'_, C>,
    loads: &Loads<'_>,
) -> Result<Outcome, Fault>
    ensures { StaticAnswers shaking.now.site.now.terms (C.Spectrum.ordinate shaking.now.spectrum.now) loads.now.floors.now result }
{
    let base = base_shear_of(shaking, loads)?;
    let roof = roof_height(loads);
    if roof.value > static_limit(shaking.site.terms.zone, shaking.site.terms.plan) {
        return Err(Ground::TooHighForStatic.at(roof.value as u32));
    }
    let shears = static_shears(loads, base);
    let combined = shears.as_slice();
    let scale = Scale {
        base: combined[0],
        code: base,
    };
    Ok(outcome_of(combined, scale))
}

// The height of the roof up to which the static method may be used.
fn static_limit(zone: Zone, plan: Plan) -> u16
    ensures { result ≡ static_limit_of zone plan }
{
    match (zone, plan) {
        (Zone::II | Zone::III, Plan::Regular) => 900,
        (Zone::II | Zone::III, Plan::Irregular) => 400,
        (Zone::IV | Zone::V, Plan::Regular) => 400,
        (Zone::IV | Zone::V, Plan::Irregular) => 120,
    }
}

// The weight × height squared of a floor.
fn moment(floor: &Floor) -> u64
    ensures { result ≡ floor.now.weight * (floor.now.height * floor.now.height) }
{
    floor.weight as u64 * (floor.height as u64 * floor.height as u64)
}

// The sum of weight × height squared over all floors.
fn whole_moment(loads: &Loads<'_>) -> u64
    ensures { result ≡ S loads.now.floors.now }
{
    loads.floors.iter().map(moment).sum()
}

// The shear of each storey at a base shear.
fn static_shears(loads: &Loads<'_>, base: BaseShear) -> ArrayVec<u32, FLOORS>
    ensures { result.items ≡ shears_up_to (static_shear base.value loads.now.floors.now) (length loads.now.floors.now) }
{
    let whole = Divisor {
        value: whole_moment(loads),
    };
    let mut shears = ArrayVec::new();
    let mut rest = whole.value;
    for floor in loads.floors {
        shears.push(nearest_quotient(base.value * rest, whole) as u32);
        rest -= moment(floor);
    }
    shears
}
