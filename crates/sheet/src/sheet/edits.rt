// The edits of a sheet.
#![tactic(auto, using(crate::proofs::Sheets::refused))]

ghost use Rattle.sheet.specs.Answers.{Answers, Staged, Stands};
ghost use Rattle.sheet.specs.Ledgers.{opened, floor as floor_call, reweigh as reweigh_call, mode as mode_call, strike as strike_call};
ghost use Rattle.sheet.specs.Modes.{typed};

use super::Sheet;
use crate::modes::{ModeShape, ModeTable};
use crate::stage::{Action, Stage};
use crate::table::FloorTable;
use formulas::floor::Floor;
use methods::loads::FLOORS;
use methods::modes::ModeRow;
use methods::outcome::Storey;
use standard::fault::Fault;

impl Sheet {
    // An empty sheet.
    pub fn new() -> Sheet
        ensures { Stands result opened }
    {
        Sheet {
            table: FloorTable {
                floors: [Floor::default(); FLOORS],
                count: 0,
            },
            modes: ModeTable::new(),
            total: 0,
            stage: Stage::Draft,
            storeys: [Storey::default(); FLOORS],
        }
    }

    // One floor more, on top.
    #[tactic(auto, using(crate::proofs::Sheets::refused, crate::proofs::FloorLists::length_grown))]
    pub fn floor(&mut self, height: u16, weight: u32) -> Result<(), Fault>
        ensures answers { Answers self.old (floor_call height weight) result self.new }
        ensures staged { Staged (floor_call height weight) result self.new }
    {
        let floor = Floor { height, weight };
        self.judge_floor(&floor)?;
        let mut table = self.table;
        table.push(floor);
        *self = Sheet {
            table,
            modes: self.modes,
            total: self.total + weight,
            stage: self.stage.after(Action::Edit),
            storeys: self.storeys,
        };
        Ok(())
    }

    // Another weight for one floor.
    #[tactic(auto, using(crate::proofs::Sheets::refused, crate::proofs::FloorLists::reweighing))]
    pub fn reweigh(&mut self, floor: u8, weight: u32) -> Result<(), Fault>
        ensures answers { Answers self.old (reweigh_call floor weight) result self.new }
        ensures staged { Staged (reweigh_call floor weight) result self.new }
    {
        let old = self.judge_reweigh(floor, weight)?;
        let place = floor as usize - 1;
        let mut table = self.table;
        table.set_weight(place, weight);
        *self = Sheet {
            table,
            modes: self.modes,
            total: self.total - old + weight,
            stage: self.stage.after(Action::Edit),
            storeys: self.storeys,
        };
        Ok(())
    }

    // One mode more, the last.
    pub fn mode(&mut self, shape: &ModeShape) -> Result<(), Fault>
        ensures answers { Answers self.old (mode_call shape.now.period shape.now.count (typed shape.now)) result self.new }
        ensures staged { Staged (mode_call shape.now.period shape.now.count (typed shape.now)) result self.new }
    {
        self.judge_mode(shape)?;
        let mut modes = self.modes;
        let row = ModeRow {
            period: shape.period,
            ordinates: shape.ordinates,
        };
        // judged: there is room
        modes.push(row).unwrap();
        *self = Sheet {
            table: self.table,
            modes,
            total: self.total,
            stage: self.stage.after(Action::Edit),
            storeys: self.storeys,
        };
        Ok(())
    }

    // Without one mode: later modes move up by one.
    pub fn strike(&mut self, mode: u8) -> Result<(), Fault>
        ensures answers { Answers self.old (strike_call mode) result self.new }
        ensures staged { Staged (strike_call mode) result self.new }
    {
        self.judge_strike(mode)?;
        let mut modes = self.modes;
        // judged: it is there
        modes.remove(mode as usize - 1).unwrap();
        *self = Sheet {
            table: self.table,
            modes,
            total: self.total,
            stage: self.stage.after(Action::Edit),
            storeys: self.storeys,
        };
        Ok(())
    }
}
