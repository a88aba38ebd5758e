ghost use Rattle.combination.specs.Squared.{squared_total};
ghost use Rattle.combination.specs.TotalLaws;

use crate::responses::Responses;
use crate::rule::Rule;

// The sum of the sizes.
#[derive(Clone, Copy)]
pub struct AbsoluteSum;

impl Rule for AbsoluteSum {
    ghost squared = { λ s xs. squared_total xs };

    ghost laws = { λ s. TotalLaws.laws };

    fn combine(&self, list: Responses<'_>) -> u32 {
        let mut sum: u32 = 0;
        for x in list.items {
            sum += x.size();
        }
        sum
    }
}
