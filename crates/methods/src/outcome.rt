// What a method leaves of each storey.
ghost use Rattle.std.specs.Prelude.{◌≡◌, ℕ, ◌^◌, ◌<◌, ◌≤◌, length, map, slice_index};
ghost use Rattle.formulas.specs.Modal.{design_shear as design_shear_of};
ghost use Rattle.methods.specs.Loads.{most_floors};
ghost use Rattle.methods.specs.Outcomes.{storey_at, Differences};

use crate::loads::FLOORS;
use crate::scale::Scale;
use arrayvec::ArrayVec;

// A storey's combined shear and design shear, and the force at the floor on it.
#[derive(Clone, Copy, Default)]
pub struct Storey {
    pub combined: u64,
    pub design: u64,
    pub force: i64,
}

// The storeys of a building, the lowest first, with places for as many as there can be.
#[derive(Clone, Copy)]
pub struct Outcome {
    pub storeys: [Storey; FLOORS],
}

// What combined shears leave of their storeys: a force is the design shear of its storey less that of the storey above.
pub(crate) fn outcome_of(combined: &[u32], scale: Scale) -> Outcome
    requires { length combined.now ≤ most_floors }
    ensures combined { (k : ℕ) → k < length combined.now → (storey_at result.storeys k).combined ≡ slice_index combined.now k }
    ensures design { (k : ℕ) → k < length combined.now → (storey_at result.storeys k).design ≡ design_shear_of scale.code.value scale.base (slice_index combined.now k) }
    ensures forces { Differences (length combined.now) result.storeys }
{
    let shears = design_shears(combined, scale);
    let design = shears.as_slice();
    let mut storeys = [Storey::default(); FLOORS];
    for (i, shear) in combined.iter().enumerate() {
        let above = design.get(i + 1).map_or(0, |above| *above);
        storeys[i] = Storey {
            combined: *shear as u64,
            design: design[i],
            force: design[i] as i64 - above as i64,
        };
    }
    Outcome { storeys }
}

// The design shear of each storey.
fn design_shears(combined: &[u32], scale: Scale) -> ArrayVec<u64, FLOORS>
    requires { length combined.now ≤ most_floors }
    ensures are { result.items ≡ map (design_shear_of scale.code.value scale.base) combined.now }
    ensures small { (k : ℕ) → k < length combined.now → slice_index result.items k < 2 ^ 62 }
{
    let mut design = ArrayVec::new();
    for shear in combined {
        design.push(scale.design_shear(*shear));
    }
    design
}
