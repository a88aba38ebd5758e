// A building's sheet: its floors and modes, and what the last run gave of each storey.
#![tactic(auto)]

ghost use Rattle.sheet.specs.Carried.{Carried};
ghost use Rattle.sheet.specs.Samples.{Samples};

mod call;
mod history;
mod modes;
mod sheet;
mod stage;
mod table;

pub use call::Call;
pub use history::{perform, run};
pub use modes::ModeShape;
pub use sheet::Sheet;

// The law of standing, as a theorem that a check asks for: whatever a call answers, it carries standing by a ledger on.
pub fn standing_is_carried() -> u8
    ensures { Carried }
{
    0
}

// Worked buildings, whose figures the definitions give.
pub fn samples_stand() -> u8
    ensures { Samples }
{
    0
}
