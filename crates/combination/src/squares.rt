ghost use Rattle.std.specs.Prelude.{refl};
ghost use Rattle.combination.specs.Squared.{squares};
ghost use Rattle.combination.specs.SquareSums;

use crate::responses::Responses;
use crate::rule::Rule;
use rounding::nearest_root;

// The root of the sum of squares.
#[derive(Clone, Copy)]
pub struct SumOfSquares;

impl Rule for SumOfSquares {
    ghost squared = { λ s xs. squares xs };

    ghost laws = { λ s. SquareSums.laws squares refl (λ _ _. refl) };

    fn combine(&self, list: Responses<'_>) -> u32 {
        let mut sum: u64 = 0;
        for x in list.items {
            let size = x.size() as u64;
            sum += size * size;
        }
        nearest_root(sum) as u32
    }
}
