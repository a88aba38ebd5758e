// Fractions of whole numbers.
ghost use Rattle.std.specs.Prelude.{◌≡◌, ◌*◌};
ghost use Rattle.std.specs.Int.{IsGcd};
ghost use Rattle.standard.specs.Fractions.{less, LowestTerms};

// A fraction of whole numbers, as it was made: not always in lowest terms.
#[derive(Clone, Copy, PartialEq, Eq, Debug)]
pub struct Fraction {
    pub numerator: u32,
    pub denominator: u32,
}

impl Fraction {
    // Whether this is below another, by multiplying across.
    // There is no `PartialOrd`: `==` compares the parts, and tells 1/2 from 2/4.
    pub fn is_less(self, other: Fraction) -> bool
        ensures { result ≡ less self other }
    {
        let left = self.numerator as u64 * other.denominator as u64;
        let right = other.numerator as u64 * self.denominator as u64;
        left < right
    }

    // The same fraction in lowest terms; one whose denominator is 0 stays as it is.
    pub fn lowest_terms(self) -> Fraction
        ensures { LowestTerms self result }
    {
        let divisor = greatest_common_divisor(self.numerator, self.denominator);
        if self.denominator == 0 || divisor == 0 {
            return self;
        }
        Fraction {
            numerator: self.numerator / divisor,
            denominator: self.denominator / divisor,
        }
    }
}

// The greatest number that divides both; 0 where both are 0.
fn greatest_common_divisor(a: u32, b: u32) -> u32
    ensures { IsGcd a b result }
{
    let mut greater = a;
    let mut lesser = b;
    while lesser > 0 {
        let rest = greater % lesser;
        greater = lesser;
        lesser = rest;
    }
    greater
}
