ghost use Rattle.std.specs.Prelude.{◌≡◌, Ok, Err};
ghost use Rattle.standard.specs.Faults.{verdict};
ghost use Rattle.standard.specs.Sites.{site_refusals, values_of, base_listed, formula_value};

use super::Site;
use crate::fault::{Fault, Ground};
use crate::terms::{Formula, Importance, Plan, SiteTerms, Soil, System, Zone};
use crate::values::SiteValues;

impl Site {
    // The site of these values, or the place of the first that is not listed or not in range.
    pub fn accept(values: &SiteValues) -> Result<Site, Fault>
        ensures { elim result [ Ok s ↦ (verdict (site_refusals values.now) ≡ Ok tt) × (values_of s.terms ≡ values.now) | Err f ↦ verdict (site_refusals values.now) ≡ Err f ] }
    {
        let ground = Ground::SiteValue;
        let zone = Zone::try_from(values.zone).map_err(|_| ground.at(1))?;
        let soil = Soil::try_from(values.soil).map_err(|_| ground.at(2))?;
        let importance = Importance::try_from(values.importance).map_err(|_| ground.at(3))?;
        let system = System::try_from(values.system).map_err(|_| ground.at(4))?;
        let formula = Formula::try_from((values.formula, values.base)).map_err(|_| ground.at(5))?;
        let plan = Plan::try_from(values.plan).map_err(|_| ground.at(6))?;
        if !base_goes(formula, values.base) {
            return Err(ground.at(7));
        }
        Ok(Site {
            terms: SiteTerms {
                zone,
                soil,
                importance,
                system,
                formula,
                plan,
            },
        })
    }
}

// Whether the base dimension is one that goes with the formula.
fn base_goes(formula: Formula, base: u16) -> bool
    ensures { result ≡ base_listed (formula_value formula) base }
{
    match formula {
        Formula::Other { .. } => (20..=5000).contains(&base),
        _ => base == 0,
    }
}
