// Rounding to whole numbers, and the theorems that the other crates build on.
#![tactic(auto)]

ghost use Rattle.rounding.specs.Rounding.{NearestLaws};
ghost use Rattle.rounding.specs.Roots.{RootLaws};
ghost use Rattle.rounding.specs.Sums.{Cauchy, CauchyWeighted};

mod quotient;
mod root;

pub use quotient::{Divisor, nearest_quotient, nearest_signed_quotient};
pub use root::nearest_root;

// The laws of rounding, as theorems that a check asks for.
pub fn rounding_laws_stand() -> u8
    ensures quotients { NearestLaws }
    ensures roots { RootLaws }
{
    0
}

// The inequality of Cauchy and Schwarz, with weights and without.
pub fn cauchy_stands() -> u8
    ensures { Cauchy × CauchyWeighted }
{
    0
}
