// The runs of the two methods.
#![tactic(auto, using(crate::proofs::Sheets::refused, crate::proofs::Counted::counted_length))]

ghost use Rattle.std.specs.Prelude.{◌≡◌, MatchResult};
ghost use Rattle.methods.specs.Outcomes.{Differences};
ghost use Rattle.methods.specs.Views.{floors_of_loads, floors_in as floors_seen, modes_in as modes_seen};
ghost use Rattle.sheet.specs.Answers.{Answers, Staged};
ghost use Rattle.sheet.specs.Contents.{floors_in, modes_in, NoFloor};
ghost use Rattle.sheet.specs.Floors.{counted};
ghost use Rattle.sheet.specs.Ledgers.{static as static_call, modal as modal_call};
ghost use Rattle.sheet.specs.Stages.{stage_after};

use super::Sheet;
use crate::stage::Action;
use base_shear::shaking::Shaking;
use combination::Rule;
use methods::loads::Loads;
use methods::modal::run_modal;
use methods::outcome::Outcome;
use methods::shapes::Shapes;
use methods::statics::run_static;
use spectra::spectrum::Spectrum;
use standard::fault::{Fault, Ground};

impl Sheet {
    // Shears and forces by the static method, in place of earlier ones.
    pub fn run_static<C: Spectrum>(&mut self, shaking: &Shaking<'_, C>) -> Result<(), Fault>
        ensures answers { Answers self.old (static_call shaking.now.site.now.terms (C.Spectrum.ordinate shaking.now.spectrum.now)) result self.new }
        ensures staged { Staged (static_call shaking.now.site.now.terms (C.Spectrum.ordinate shaking.now.spectrum.now)) result self.new }
    {
        let outcome = run_static(shaking, &self.loads()?)?;
        self.put(Action::RunStatic, &outcome);
        Ok(())
    }

    // Shears and forces by the modal method, combined by a rule, in place of earlier ones.
    pub fn run_modal<C: Spectrum, R: Rule>(
        &mut self,
        shaking: &Shaking<'_, C>,
        rule: &R,
    ) -> Result<(), Fault>
        ensures answers { Answers self.old (modal_call shaking.now.site.now.terms (C.Spectrum.ordinate shaking.now.spectrum.now) (R.Rule.squared rule.now)) result self.new }
        ensures staged { Staged (modal_call shaking.now.site.now.terms (C.Spectrum.ordinate shaking.now.spectrum.now) (R.Rule.squared rule.now)) result self.new }
    {
        let outcome = run_modal(shaking, rule, &self.shapes()?)?;
        self.put(Action::RunModal, &outcome);
        Ok(())
    }

    // The floors as the methods see them, with the weights that count.
    #[tactic(auto, unfolding(crate::specs::Floors::counted))]
    fn loads(&self) -> Result<Loads<'_>, Fault>
        ensures { MatchResult result (λ l. floors_of_loads l ≡ counted (floors_in self.now)) (λ f. NoFloor self.now f) }
    {
        if self.table.count == 0 {
            return Err(Ground::NoFloors.at(0));
        }
        Ok(Loads {
            floors: &self.table.floors[..self.table.count],
            weight: self.total,
        })
    }

    // The modes as the modal method sees them.
    #[tactic(auto, using(crate::proofs::Counted::counted_length, fixed_list::specs::Items::items_fit))]
    fn shapes(&self) -> Result<Shapes<'_>, Fault>
        ensures { MatchResult result (λ v. (floors_seen v ≡ counted (floors_in self.now)) × (modes_seen v ≡ modes_in self.now)) (λ f. NoFloor self.now f) }
    {
        Ok(Shapes {
            loads: self.loads()?,
            rows: self.modes.as_slice(),
        })
    }

    // What a run gives stands on the sheet.
    fn put(&mut self, action: Action, outcome: &Outcome)
        requires { Differences self.old.table.count outcome.now.storeys }
        ensures table { self.new.table ≡ self.old.table }
        ensures modes { self.new.modes ≡ self.old.modes }
        ensures stage { self.new.stage ≡ stage_after action }
        ensures storeys { self.new.storeys ≡ outcome.now.storeys }
    {
        let storeys = outcome.storeys;
        *self = Sheet {
            table: self.table,
            modes: self.modes,
            total: self.total,
            stage: self.stage.after(action),
            storeys,
        };
    }
}
