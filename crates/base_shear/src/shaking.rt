// What shakes a building: the acceleration at a period, and the code base shear.
ghost use Rattle.std.specs.Prelude.{◌≡◌, Ok, Err};
ghost use Rattle.base_shear.specs.Accelerations.{acceleration_of, Acceleration, reduced, least_acceleration_of, code_base_shear_of, period_refusals};
ghost use Rattle.spectra.specs.Spectra.{Ordinate};
ghost use Rattle.standard.specs.Faults.{verdict};

use crate::period::natural_period;
use rounding::{Divisor, nearest_quotient};
use spectra::spectrum::Spectrum;
use standard::fault::{Fault, Ground};
use standard::fraction::Fraction;
use standard::measures::{Height, Period};
use standard::site::Site;
use standard::terms::SiteTerms;

// A site, and the spectrum by which it shakes.
#[derive(Clone, Copy)]
pub struct Shaking<'a, C> {
    pub site: &'a Site,
    pub spectrum: &'a C,
}

impl<'a, C: Spectrum> Shaking<'a, C> {
    // The design acceleration at a period, as a fraction of gravity.
    pub fn acceleration(&self, period: Period) -> Fraction
        ensures is { result ≡ acceleration_of self.now.site.now.terms (C.Spectrum.ordinate self.now.spectrum.now) period.value }
        ensures bounded { Acceleration result }
    {
        let reduced = reduced_acceleration(&self.site.terms, self.spectrum.at(period));
        let least = least_acceleration(&self.site.terms);
        if period.value <= 100 && reduced.is_less(least) {
            least
        } else {
            reduced
        }
    }

    // The base shear of the code for a building with its roof floor at this height and of this weight.
    pub fn code_base_shear(&self, roof: Height, weight: u32) -> Result<u64, Fault>
        ensures { elim result [ Ok v ↦ (verdict (period_refusals self.now.site.now.terms.formula roof.value) ≡ Ok tt) × (v ≡ code_base_shear_of self.now.site.now.terms (C.Spectrum.ordinate self.now.spectrum.now) roof.value weight) | Err f ↦ verdict (period_refusals self.now.site.now.terms.formula roof.value) ≡ Err f ] }
    {
        let natural = natural_period(self.site, roof);
        let period = Period::new(natural).ok_or(Ground::PeriodTooLong.at(natural))?;
        let a = self.acceleration(period);
        Ok(nearest_quotient(
            a.numerator as u64 * weight as u64,
            Divisor {
                value: a.denominator as u64,
            },
        ))
    }
}

// Z/200 × I/R × Sa.
fn reduced_acceleration(terms: &SiteTerms, sa: Fraction) -> Fraction
    requires { Ordinate sa }
    ensures { result ≡ reduced terms.now sa }
{
    Fraction {
        numerator: terms.zone.number() * terms.importance.number() * sa.numerator,
        denominator: 200 * terms.system.reduction_number() * sa.denominator,
    }
}

// Z/200.
fn least_acceleration(terms: &SiteTerms) -> Fraction
    ensures { result ≡ least_acceleration_of terms.now }
{
    Fraction {
        numerator: terms.zone.number(),
        denominator: 200,
    }
}
