ghost use Rattle.std.specs.Prelude.{◌≡◌, ℕ, ◌≤◌, List};
ghost use Rattle.rounding.specs.Roots.{root};
ghost use Rattle.combination.specs.declared.response.Response.{Response};
ghost use Rattle.combination.specs.Values.{total};
ghost use Rattle.combination.specs.Laws.{Laws};

use crate::response::Response;
use crate::responses::Responses;

// How a storey's modal values become one number.
pub trait Rule {
    // The square of the combined size, for values of every size.
    ghost squared: { Self → List Response → ℕ };

    // The combined size, to the nearest whole number.
    fn combine(&self, list: Responses<'_>) -> u32
        ensures { result ≡ root (squared self.now list.entry.items.now) };

    // What such a square owes.
    ghost laws: { (s : Self) → Laws (squared s) };
}

// By any rule the combined size is at most the sum of the sizes.
pub fn combined_at_most_sum<R: Rule>(rule: &R, list: Responses<'_>) -> u32
    ensures combined { result ≡ root (R.Rule.squared rule.now list.entry.items.now) }
    ensures bounded { result ≤ total list.entry.items.now }
{
    rule.combine(list)
}
