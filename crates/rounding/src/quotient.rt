// The nearest whole quotient.
ghost use Rattle.std.specs.Prelude.{◌≡◌, ◌^◌, ◌<◌};
ghost use Rattle.rounding.specs.Rounding.{nearest, nearestℤ};

// What a number can be divided by: from 1 to the largest i64, so that it serves signed numbers too.
#[derive(Clone, Copy, PartialEq, Eq, Debug)]
pub struct Divisor {
    pub value: u64,
    ghost positive: { 0 < value },
    ghost within: { value < 2 ^ 63 },
}

// The whole number nearest to `n` over the divisor, a half going up.
#[tactic(auto, using(crate::proofs::Rounding::nearest_up, crate::proofs::Rounding::nearest_down))]
pub fn nearest_quotient(n: u64, divisor: Divisor) -> u64
    ensures { result ≡ nearest n divisor.value }
{
    let d = divisor.value;
    let quotient = n / d;
    let rest = n % d;
    if rest >= d - rest {
        quotient + 1
    } else {
        quotient
    }
}

// The whole number nearest to `n` over the divisor, a half going away from zero.
pub fn nearest_signed_quotient(n: i64, divisor: Divisor) -> i64
    ensures { result ≡ nearestℤ n divisor.value }
{
    let quotient = n / divisor.value as i64;
    let rest = (n % divisor.value as i64).unsigned_abs();
    if rest < divisor.value - rest {
        quotient
    } else if n < 0 {
        quotient - 1
    } else {
        quotient + 1
    }
}
