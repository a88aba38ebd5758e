ghost use Rattle.std.specs.Prelude.{refl};
ghost use Rattle.combination.specs.Choice.{chosen, IsNumbered};
ghost use Rattle.combination.specs.declared.choice.RuleChoice.TheVariants.{SumOfSquares, AbsoluteSum, GroupedSumOfSquares, GroupedAbsoluteSum};
ghost use Rattle.combination.specs.Squared;
ghost use Rattle.combination.specs.Squared.{squared_total};
ghost use Rattle.combination.specs.SquareSums;
ghost use Rattle.combination.specs.TotalLaws;
ghost use Rattle.combination.specs.GroupsLaws;

use crate::absolute::AbsoluteSum;
use crate::grouping::Grouping;
use crate::responses::Responses;
use crate::rule::Rule;
use crate::squares::SumOfSquares;
use std::error::Error;
use std::fmt;

// One of the rules, as a value.
#[derive(Clone, Copy, Debug, PartialEq, Eq)]
pub enum RuleChoice {
    SumOfSquares,
    AbsoluteSum,
    GroupedSumOfSquares,
    GroupedAbsoluteSum,
}

// A number that no rule has.
#[derive(Clone, Copy, Debug, PartialEq, Eq)]
pub struct UnknownRule(pub u8);

impl TryFrom<u8> for RuleChoice {
    type Error = UnknownRule;

    ghost try_from_gives = { IsNumbered };

    fn try_from(number: u8) -> Result<RuleChoice, UnknownRule> {
        match number {
            1 => Ok(RuleChoice::SumOfSquares),
            2 => Ok(RuleChoice::AbsoluteSum),
            3 => Ok(RuleChoice::GroupedSumOfSquares),
            4 => Ok(RuleChoice::GroupedAbsoluteSum),
            _ => Err(UnknownRule(number)),
        }
    }
}

impl fmt::Display for UnknownRule {
    ghost use Rattle.std.specs.Prelude.{◌++◌, Some, codes};
    ghost use Rattle.std.specs.Fmt.{decimal};

    ghost output = { λ e. Some (codes "no rule has the number " ++ decimal e.0) };

    fn fmt<W: fmt::Write>(&self, f: &mut fmt::Formatter<W>) -> fmt::Result {
        write!(f, "no rule has the number {}", self.0)
    }
}

impl Error for UnknownRule {}

impl Rule for RuleChoice {
    ghost squared = { chosen };

    ghost laws = { elim [
      | SumOfSquares ↦ SquareSums.laws Squared.squares refl (λ _ _. refl)
      | AbsoluteSum ↦ TotalLaws.laws
      | GroupedSumOfSquares ↦ GroupsLaws.laws Squared.squares (SquareSums.laws Squared.squares refl (λ _ _. refl))
      | GroupedAbsoluteSum ↦ GroupsLaws.laws squared_total TotalLaws.laws
    ] };

    fn combine(&self, list: Responses<'_>) -> u32 {
        match self {
            RuleChoice::SumOfSquares => SumOfSquares.combine(list),
            RuleChoice::AbsoluteSum => AbsoluteSum.combine(list),
            RuleChoice::GroupedSumOfSquares => Grouping { rule: SumOfSquares }.combine(list),
            RuleChoice::GroupedAbsoluteSum => Grouping { rule: AbsoluteSum }.combine(list),
        }
    }
}
