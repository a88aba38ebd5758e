// Whether a call is refused: each call's own grounds, in the order in which they are tried.
ghost use Rattle.std.specs.Prelude.{◌≡◌, ◌-◌, not, Ok, Err, IfOk, MatchResult};
ghost use Rattle.standard.specs.Sites.{within};
ghost use Rattle.standard.specs.Faults.{verdict};
ghost use Rattle.sheet.specs.Contents.{floors_in, modes_in};
ghost use Rattle.sheet.specs.Floors.{weight_at};
ghost use Rattle.sheet.specs.Ledgers.{refusals, floor as floor_call, reweigh as reweigh_call, mode as mode_call, strike as strike_call};
ghost use Rattle.sheet.specs.Modes.{typed};

use super::Sheet;
use crate::modes::{ModeShape, reaches_down_to};
use formulas::floor::Floor;
use methods::loads::FLOORS;
use methods::modes::MODES;
use standard::fault::{Fault, Ground};

const HEAVIEST: u32 = 500_000;

// Whether no floor may weigh this much.
fn weight_is_off(weight: u32) -> bool
    ensures { result ≡ not (within 100 100000 weight) }
{
    !(100..=100_000).contains(&weight)
}

impl Sheet {
    pub(super) fn judge_floor(&self, floor: &Floor) -> Result<(), Fault>
        ensures { result ≡ verdict (refusals (floors_in self.now) (modes_in self.now) (floor_call floor.now.height floor.now.weight)) }
    {
        let Floor { height, weight } = *floor;
        let number = self.table.count as u32 + 1;
        if !(20..=2000).contains(&height) || height <= self.table.roof() {
            return Err(Ground::FloorHeight.at(number));
        }
        if weight_is_off(weight) {
            return Err(Ground::FloorWeight.at(number));
        }
        if self.total + weight > HEAVIEST {
            return Err(Ground::TotalWeight.at(number));
        }
        if self.table.count >= FLOORS {
            return Err(Ground::TooManyFloors.at(FLOORS as u32 + 1));
        }
        if !self.modes.is_empty() {
            return Err(Ground::ModesEntered.at(self.modes.len() as u32));
        }
        Ok(())
    }

    // Answers what the floor weighed.
    #[tactic(auto, using(crate::proofs::FloorLists::weight_within))]
    pub(super) fn judge_reweigh(&self, floor: u8, weight: u32) -> Result<u32, Fault>
        ensures judged { MatchResult result (λ old. Ok tt ≡ verdict (refusals (floors_in self.now) (modes_in self.now) (reweigh_call floor weight))) (λ f. Err f ≡ verdict (refusals (floors_in self.now) (modes_in self.now) (reweigh_call floor weight))) }
        ensures old { IfOk result (λ old. old ≡ weight_at (floors_in self.now) (floor - 1)) }
    {
        let number = floor as u32;
        if weight_is_off(weight) {
            return Err(Ground::FloorWeight.at(number));
        }
        let place = (floor as usize).checked_sub(1);
        let Some(old) = place.and_then(|k| self.table.weight(k)) else {
            return Err(Ground::NoSuchFloor.at(number));
        };
        if self.total - old + weight > HEAVIEST {
            return Err(Ground::TotalWeight.at(number));
        }
        Ok(old)
    }

    pub(super) fn judge_mode(&self, shape: &ModeShape) -> Result<(), Fault>
        ensures { result ≡ verdict (refusals (floors_in self.now) (modes_in self.now) (mode_call shape.now.period shape.now.count (typed shape.now))) }
    {
        let number = self.modes.len() as u32 + 1;
        if self.table.count == 0 || shape.count as usize != self.table.count {
            return Err(Ground::OrdinateCount.at(shape.count as u32));
        }
        if !(1..=4000).contains(&shape.period) || reaches_down_to(&self.modes, shape.period) {
            return Err(Ground::ModePeriod.at(number));
        }
        if let Some(place) = shape.first_outside() {
            return Err(Ground::OrdinateRange.at(place));
        }
        if shape.is_all_zero() {
            return Err(Ground::OrdinatesAllZero.at(number));
        }
        if self.modes.len() >= MODES {
            return Err(Ground::TooManyModes.at(MODES as u32 + 1));
        }
        Ok(())
    }

    pub(super) fn judge_strike(&self, mode: u8) -> Result<(), Fault>
        ensures { result ≡ verdict (refusals (floors_in self.now) (modes_in self.now) (strike_call mode)) }
    {
        if !(1..=self.modes.len()).contains(&(mode as usize)) {
            return Err(Ground::NoSuchMode.at(mode as u32));
        }
        Ok(())
    }
}
