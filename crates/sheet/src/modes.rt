// The modes of a building, in fixed memory.
ghost use Rattle.std.specs.Prelude.{◌≡◌, ℕ};
ghost use Rattle.methods.specs.Shapes.{all_zero};
ghost use Rattle.sheet.specs.Modes.{modes_held_in, not_below_last, typed, first_outside};

use fixed_list::FixedList;
use methods::loads::FLOORS;
use methods::modes::{MODES, ModeRow};

// A mode as it is typed in: of the places for ordinates only those within the count are looked at.
#[derive(Clone, Copy)]
pub struct ModeShape {
    pub period: u16,
    pub count: u8,
    pub ordinates: [i16; FLOORS],
}

// The modes of a sheet, in the order in which they were entered.
pub type ModeTable = FixedList<ModeRow, MODES>;

impl ModeShape {
    // The ordinates that count.
    fn typed(&self) -> &[i16]
        ensures { result.now ≡ typed self.now }
    {
        &self.ordinates[..(self.count as usize).min(FLOORS)]
    }

    // The number from 1 of the first ordinate outside its range.
    pub(crate) fn first_outside(&self) -> Option<u32>
        ensures { result ≡ first_outside (typed self.now) }
    {
        self.typed()
            .iter()
            .position(|y| y.unsigned_abs() > 4000)
            .map(|place| place as u32 + 1)
    }

    // Whether every ordinate is 0.
    pub(crate) fn is_all_zero(&self) -> bool
        ensures { result ≡ all_zero (typed self.now) }
    {
        self.typed().iter().all(|y| *y == 0)
    }
}

// Whether the last mode's period is not above this one.
pub(crate) fn reaches_down_to(modes: &ModeTable, period: u16) -> bool
    ensures { (n : ℕ) → result ≡ not_below_last period (modes_held_in n modes.now) }
{
    modes
        .as_slice()
        .last()
        .is_some_and(|row| row.period <= period)
}
