ghost use Rattle.std.specs.Prelude.{◌≡◌, ◌≤◌, pos};
ghost use Rattle.fixed_list.specs.Items.{items_of};
ghost use Rattle.rounding.specs.Roots.{root};
ghost use Rattle.combination.specs.Values.{size, mode, largest};
ghost use Rattle.combination.specs.Squared.{squares};
ghost use Rattle.combination.specs.Groups.{close, groups};
ghost use Rattle.combination.specs.GroupsLaws;

use crate::response::Response;
use crate::response_list::ResponseList;
use crate::responses::Responses;
use crate::rule::Rule;
use crate::squares::SumOfSquares;
use fixed_list::FixedList;

// A rule over the groups of close values.
#[derive(Clone, Copy)]
pub struct Grouping<R> {
    pub rule: R,
}

impl<R: Rule> Rule for Grouping<R> {
    ghost squared = { λ s xs. R.Rule.squared s.rule (groups xs) };

    ghost laws = { λ s. GroupsLaws.laws (R.Rule.squared s.rule) (R.Rule.laws s.rule) };

    fn combine(&self, list: Responses<'_>) -> u32 {
        self.rule.combine(grouped(list).list())
    }
}

// Each run of close neighbours as one value, of the sum of their sizes and the longest of their periods.
fn grouped(list: Responses<'_>) -> ResponseList
    ensures { items_of result.held ≡ groups list.entry.items.now }
{
    let mut held = FixedList::new();
    let Some((first, rest)) = list.items.split_first() else {
        return ResponseList { held };
    };
    let mut group = sized(first);
    let mut previous = first.period;
    for x in rest {
        let next = sized(x);
        if is_close(previous, x.period) {
            group.value += next.value;
        } else {
            // There is room: no more groups than values.
            let _ = held.push(group);
            group = next;
        }
        previous = x.period;
    }
    let _ = held.push(group);
    ResponseList { held }
}

// A value of the same size that is not negative.
fn sized(x: &Response) -> Response
    requires { size x.now ≤ largest }
    ensures { result ≡ mode x.now.period (pos (size x.now)) }
{
    Response {
        period: x.period,
        value: x.value.abs(),
    }
}

// Whether a period is at most the next shorter one and a tenth of it.
fn is_close(longer: u16, shorter: u16) -> bool
    ensures { result ≡ close longer shorter }
{
    10 * longer as u32 <= 11 * shorter as u32
}

// Grouping over grouping is a rule too.
pub fn twice_grouped(list: Responses<'_>) -> u32
    ensures { result ≡ root (squares (groups (groups list.entry.items.now))) }
{
    let rule = Grouping {
        rule: Grouping { rule: SumOfSquares },
    };
    rule.combine(list)
}
