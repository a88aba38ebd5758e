// How a storey's modal values become one number.
#![tactic(auto)]

ghost use Rattle.combination.specs.Theorems.{RuleLaws};
ghost use Rattle.combination.specs.Examples.{Examples};

mod absolute;
mod choice;
mod grouping;
mod response;
mod response_list;
mod responses;
mod rule;
mod squares;

pub use absolute::AbsoluteSum;
pub use choice::{RuleChoice, UnknownRule};
pub use grouping::{Grouping, twice_grouped};
pub use response::Response;
pub use response_list::ResponseList;
pub use responses::Responses;
pub use rule::{Rule, combined_at_most_sum};
pub use squares::SumOfSquares;

// The laws of the rules and examples of them, as theorems that a check asks for.
pub fn rule_laws_stand() -> u8
    ensures laws { RuleLaws }
    ensures examples { Examples }
{
    0
}
