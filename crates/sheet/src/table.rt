// The floors of a building, in fixed memory.
ghost use Rattle.std.specs.Prelude.{◌≡◌, ◌+◌, ◌<◌, ◌≤◌, length, MatchOption};
ghost use Rattle.methods.specs.Loads.{most_floors, roof_of};
ghost use Rattle.sheet.specs.Floors.{floors_of, weight_at, grown, reweighed};

use formulas::floor::Floor;
use methods::loads::FLOORS;

#[derive(Clone, Copy)]
pub struct FloorTable {
    pub floors: [Floor; FLOORS],
    pub count: usize,
}

impl FloorTable {
    // The height of the highest floor, 0 with none.
    pub(crate) fn roof(&self) -> u16
        requires { self.now.count ≤ most_floors }
        ensures { result ≡ roof_of (floors_of self.now) }
    {
        self.floors[..self.count].last().map_or(0, |f| f.height)
    }

    // What the floor at place `k` weighs, where there is one.
    pub(crate) fn weight(&self, k: usize) -> Option<u32>
        requires { self.now.count ≤ most_floors }
        ensures { MatchOption result (length (floors_of self.now) ≤ k) (λ w. (k < length (floors_of self.now)) × (w ≡ weight_at (floors_of self.now) k)) }
    {
        self.floors[..self.count].get(k).map(|f| f.weight)
    }

    // One floor more, on top.
    pub(crate) fn push(&mut self, floor: Floor)
        requires { self.old.count < most_floors }
        ensures floors { floors_of self.new ≡ grown (floors_of self.old) floor.height floor.weight }
        ensures count { self.new.count ≡ self.old.count + 1 }
    {
        self.floors[self.count] = floor;
        self.count += 1;
    }

    // Another weight for the floor at place `k`, and no other floor.
    pub(crate) fn set_weight(&mut self, k: usize, weight: u32)
        requires { (k < self.old.count) × (self.old.count ≤ most_floors) }
        ensures floors { floors_of self.new ≡ reweighed (floors_of self.old) k weight }
        ensures count { self.new.count ≡ self.old.count }
    {
        self.floors[k].weight = weight;
    }
}
