// The desk that takes a deck's records one by one, and prints what they come to.
#![tactic(auto)]

ghost use Rattle.deck.specs.Samples.{PrintLaw, FramePrint};

use sheet::samples_stand;

mod desk;
mod pages;
mod whole;

pub use desk::Desk;
pub use records::read::RECORD_LENGTH;
pub use whole::{answer_deck, take_deck};

// What a desk prints follows from its records alone, and of a two-storey building it is known.
pub fn prints_stand() -> u8
    ensures law { PrintLaw }
    ensures sample { FramePrint }
{
    samples_stand()
}
