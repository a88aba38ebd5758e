// The period of a building.
ghost use Rattle.std.specs.Prelude.{◌≡◌, ◌-◌, ◌≤◌, slice_index};
ghost use Rattle.base_shear.specs.Periods.{period_of, IsPeriod};

use crate::tables::{CONCRETE_FRAME, HEIGHTS, STEEL_FRAME};
use standard::measures::Height;
use standard::site::Site;
use standard::terms::Formula;

// The period in milliseconds of a building on the site, by the height of its roof floor.
pub fn natural_period(site: &Site, roof: Height) -> u32
    ensures is { result ≡ period_of site.now.terms.formula roof.value }
    ensures least { IsPeriod site.now.terms.formula roof.value result }
{
    match site.terms.formula {
        Formula::ConcreteFrame => frame_period(&CONCRETE_FRAME, roof),
        Formula::SteelFrame => frame_period(&STEEL_FRAME, roof),
        Formula::Other { base } => other_period(roof, base),
    }
}

// The period of a bare frame, by the table of its formula.
fn frame_period(table: &[u16; HEIGHTS], roof: Height) -> u32
    ensures { result ≡ slice_index table.now (roof.value - 20) }
{
    table[roof.value as usize - 20] as u32
}

// Half of the root, rounded up: the least t whose odd number after the double is above the root.
fn other_period(roof: Height, base: u16) -> u32
    requires { 20 ≤ base }
    ensures { IsPeriod (Formula.Other base) roof.value result }
{
    let height = roof.value as u64;
    let root = (3240 * height * height / base as u64).isqrt();
    ((root + 1) / 2) as u32
}
