// Measures that carry their range.
ghost use Rattle.std.specs.Prelude.{◌≡◌, ◌≤◌, false, Some, None};
ghost use Rattle.standard.specs.Sites.{within};

// A whole number of units from LOW to HIGH.
#[derive(Clone, Copy, PartialEq, Eq, Debug)]
pub struct Measure<const LOW: u16, const HIGH: u16> {
    pub value: u16,
    ghost low: { LOW ≤ value },
    ghost high: { value ≤ HIGH },
}

// A period in milliseconds, for which every spectrum has an ordinate.
pub type Period = Measure<1, 4000>;

// A height above the base, in decimetres.
pub type Height = Measure<20, 2000>;

impl<const LOW: u16, const HIGH: u16> Measure<LOW, HIGH> {
    // The measure of so many units, where they are within its range.
    pub fn new(value: u32) -> Option<Self>
        ensures { elim result [ None ↦ within LOW HIGH value ≡ false | Some m ↦ m.value ≡ value ] }
    {
        if !(LOW as u32..=HIGH as u32).contains(&value) {
            return None;
        }
        Some(Measure {
            value: value as u16,
        })
    }
}
