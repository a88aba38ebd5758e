// The modes as the modal method sees them, with the floors that they move.
ghost use Rattle.std.specs.Prelude.{◌≡◌, ◌≤◌, true, length};
ghost use Rattle.methods.specs.Loads.{every};
ghost use Rattle.methods.specs.Shapes.{falls_from, modes_of, most_modes, usable};

use crate::loads::Loads;
use crate::modes::ModeRow;

// Modes of falling periods, each with an ordinate within its range for every floor, and not all of them 0.
#[derive(Clone, Copy)]
pub struct Shapes<'a> {
    pub loads: Loads<'a>,
    pub rows: &'a [ModeRow],
    ghost few: { length rows.now ≤ most_modes },
    ghost falling: { falls_from 4001 (modes_of (length loads.floors.now) rows.now) ≡ true },
    ghost fit: { every (usable (length loads.floors.now)) (modes_of (length loads.floors.now) rows.now) ≡ true },
}
