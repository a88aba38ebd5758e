// The floors as the methods see them.
ghost use Rattle.std.specs.Prelude.{◌≡◌, ◌≤◌, true, length};
ghost use Rattle.formulas.specs.Buildings.{W, heaviest};
ghost use Rattle.methods.specs.Loads.{every, in_range, most_floors};

use formulas::floor::Floor;

// No building has more floors.
pub const FLOORS: usize = 40;

// At least one floor, each within its ranges, and their weight.
#[derive(Clone, Copy)]
pub struct Loads<'a> {
    pub floors: &'a [Floor],
    pub weight: u32,
    ghost some: { 1 ≤ length floors.now },
    ghost few: { length floors.now ≤ most_floors },
    ghost ranged: { every in_range floors.now ≡ true },
    ghost summed: { weight ≡ W floors.now },
    ghost light: { weight ≤ heaviest },
}
