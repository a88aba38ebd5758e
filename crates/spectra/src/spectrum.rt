// What a spectrum is.
ghost use Rattle.std.specs.Prelude.{◌≡◌, ℕ};
ghost use Rattle.standard.specs.declared.fraction.Fraction.{Fraction};
ghost use Rattle.spectra.specs.Spectra.{SpectrumLaw, code_curve};
ghost use Rattle.std.proofs.Common.{rules};

use standard::fraction::Fraction;
use standard::measures::Period;
use standard::site::Site;
use standard::terms::Soil;

// A spectrum answers every period with an ordinate that is within the law.
pub trait Spectrum {
    // Sa, a fraction for each period.
    ghost ordinate: { Self → ℕ → Fraction };

    // Sa at this period.
    fn at(&self, period: Period) -> Fraction
        ensures { result ≡ ordinate self.now period.value };

    ghost lawful: { (s : Self) → SpectrumLaw (ordinate s) };
}

// The curve that the code gives for a kind of soil.
#[derive(Clone, Copy, PartialEq, Eq, Debug)]
pub struct CodeCurve {
    pub soil: Soil,
}

// The code's curve for the soil of a site.
impl From<&Site> for CodeCurve {
    ghost from_gives = { λ site curve. curve.soil ≡ site.now.terms.soil };

    fn from(site: &Site) -> CodeCurve {
        CodeCurve {
            soil: site.terms.soil,
        }
    }
}

impl Spectrum for CodeCurve {
    ghost ordinate = { λ s t. code_curve s.soil t };

    ghost lawful = { Prim.search rules };

    fn at(&self, period: Period) -> Fraction {
        let t = u32::from(period.value);
        let (level, falling) = match self.soil {
            Soil::Hard => (400, 1000),
            Soil::Medium => (550, 1360),
            Soil::Soft => (670, 1670),
        };
        if t <= 100 {
            Fraction {
                numerator: 1000 + 15 * t,
                denominator: 1000,
            }
        } else if t <= level {
            Fraction {
                numerator: 5,
                denominator: 2,
            }
        } else {
            Fraction {
                numerator: falling,
                denominator: t,
            }
        }
    }
}
