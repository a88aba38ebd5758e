// The nearest whole root.
ghost use Rattle.std.specs.Prelude.{◌≡◌, ◌+◌, ◌*◌, ◌<◌, ◌≤◌};
ghost use Rattle.rounding.specs.Roots.{root};

// The root of a number above 0, rounded down: Newton's steps fall to it from above.
#[tactic(auto, using(crate::proofs::Newton::steps))]
fn whole_root(q: u64) -> u64
    requires { 0 < q }
    ensures low { result * result ≤ q }
    ensures high { q < (result + 1) * (result + 1) }
{
    // the step from a power of two near the root is a shift and no division
    let half = (q.ilog2() + 1) / 2;
    let mut above: u64 = ((1 << half) + (q >> half)) / 2;
    loop {
        let next = (above + q / above) / 2;
        if next >= above {
            return above;
        }
        above = next;
    }
}

// The whole number nearest to the square root of `q`.
#[tactic(auto, using(crate::proofs::Roots::rest_tells))]
pub fn nearest_root(q: u64) -> u64
    ensures { result ≡ root q }
{
    if q == 0 {
        return 0;
    }
    let floor = whole_root(q);
    if q - floor * floor > floor {
        floor + 1
    } else {
        floor
    }
}
