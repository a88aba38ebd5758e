ghost use Rattle.std.specs.Prelude.{◌≡◌, ◌≤◌, length, MatchOption};
ghost use Rattle.fixed_list.specs.Items.{items_of};
ghost use Rattle.combination.specs.Values.{Sound, falls, total, most};

use crate::response::Response;
use crate::responses::Responses;
use fixed_list::FixedList;

// As many values as a storey can have, and as much as their sizes can add up to.
pub(crate) const MOST: usize = 9;

const LARGEST: u64 = 10_000_000;

// A storey's modal values, held by value.
#[derive(Clone, Copy)]
pub struct ResponseList {
    pub(crate) held: FixedList<Response, MOST>,
    ghost sound: { Sound (items_of held) },
}

impl ResponseList {
    // These values as a list, unless they are too many, too large or not of falling periods.
    pub fn new(items: &[Response]) -> Option<ResponseList>
        ensures { MatchOption result (Sound items.now → ⊥) (λ l. Sound items.now × (items_of l.held ≡ items.now)) }
    {
        let held = FixedList::from_slice(items)?;
        if !periods_fall(items) || sum_of_sizes(items) > LARGEST {
            return None;
        }
        Some(ResponseList { held })
    }

    // The values, as a rule takes them.
    pub fn list(&self) -> Responses<'_>
        ensures { result.items.now ≡ items_of self.now.held }
    {
        Responses {
            items: self.held.as_slice(),
        }
    }
}

// Whether each period is below the one before it.
fn periods_fall(items: &[Response]) -> bool
    ensures { result ≡ falls items.now }
{
    items.is_sorted_by(|longer, shorter| shorter.period < longer.period)
}

// The sum of the sizes.
fn sum_of_sizes(items: &[Response]) -> u64
    requires { length items.now ≤ most }
    ensures { result ≡ total items.now }
{
    items.iter().map(|x| x.size() as u64).sum()
}
