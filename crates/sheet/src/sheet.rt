// The sheet of a building. What it always keeps is in its type.
ghost use Rattle.std.specs.Prelude.{◌≡◌, ◌≤◌, true, length};
ghost use Rattle.formulas.specs.Buildings.{W, heaviest};
ghost use Rattle.methods.specs.Loads.{every, in_range, most_floors};
ghost use Rattle.methods.specs.Shapes.{falls_from, usable};
ghost use Rattle.sheet.specs.Floors.{floors_of, rises_from};
ghost use Rattle.sheet.specs.Modes.{modes_held_in};
ghost use Rattle.sheet.specs.Stages.{Forced};

use crate::modes::ModeTable;
use crate::stage::Stage;
use crate::table::FloorTable;
use methods::loads::FLOORS;
use methods::outcome::Storey;

mod edits;
mod judge;
mod reading;
mod runs;

// The floors from the lowest up, the modes, what the floors weigh together, and what the last run gave of each storey.
// The stage stands before the total, so that the storeys have no padding before them: with it the compiler copies
// them out and back wherever a sheet is written whole.
#[derive(Clone, Copy)]
pub struct Sheet {
    table: FloorTable,
    modes: ModeTable,
    stage: Stage,
    total: u32,
    storeys: [Storey; FLOORS],
    ghost few: { table.count ≤ most_floors },
    ghost held: { length (floors_of table) ≡ table.count },
    ghost rising: { rises_from 0 (floors_of table) ≡ true },
    ghost ranged: { every in_range (floors_of table) ≡ true },
    ghost summed: { total ≡ W (floors_of table) },
    ghost light: { total ≤ heaviest },
    ghost falling: { falls_from 4001 (modes_held_in table.count modes) ≡ true },
    ghost moving: { every (usable table.count) (modes_held_in table.count modes) ≡ true },
    ghost forced: { Forced stage table.count storeys },
}
