// A desk: the site once one was accepted, and the sheet.
ghost use Rattle.std.specs.Prelude.{◌≡◌, [], Some, None, Ok, Err};
ghost use Rattle.standard.specs.Faults.{fault};
ghost use Rattle.spectra.specs.Spectra.{code_curve};
ghost use Rattle.combination.specs.Choice.{chosen};
ghost use Rattle.combination.specs.Squared.{squares};
ghost use Rattle.records.specs.Rows.{record_of, told, mode as mode_row, modal as modal_row};
ghost use Rattle.sheet.specs.Histories.{asked};
ghost use Rattle.deck.specs.Books.{accept as accept_deed, ask as ask_deed, deed, blank};
ghost use Rattle.deck.specs.Desks.{site_in, Does, Takes, DeskStands, CarriesOn};

use base_shear::shaking::Shaking;
use combination::RuleChoice;
use records::ordinates::decode_ordinates;
use records::read::read_record;
use records::record::Record;
use sheet::{Call, ModeShape, Sheet, perform};
use spectra::spectrum::CodeCurve;
use standard::fault::{Fault, Ground};
use standard::site::Site;
use standard::values::SiteValues;

// What a deck of records is taken by: the site, none until one is accepted, and the sheet.
#[derive(Clone, Copy)]
pub struct Desk {
    site: Option<Site>,
    sheet: Sheet,
}

impl Desk {
    // A desk that has taken nothing.
    pub fn new() -> Desk
        ensures { DeskStands result blank }
    {
        Desk {
            site: None,
            sheet: Sheet::new(),
        }
    }

    // The sheet, for reading.
    pub fn sheet(&self) -> &Sheet
        ensures { result.now ≡ self.now.sheet }
    {
        &self.sheet
    }

    // The site, where one was accepted.
    fn accepted_site(&self) -> Result<Site, Fault>
        ensures { elim result [ Ok s ↦ site_in self.now ≡ Some s.terms | Err f ↦ (site_in self.now ≡ None) × (f ≡ fault Ground.SiteOrder 0) ] }
    {
        self.site.ok_or(Ground::SiteOrder.at(0))
    }

    // The site of these values, where none was accepted before.
    fn take_site(&mut self, values: &SiteValues) -> Result<(), Fault>
        ensures { Does self.old (accept_deed values.now) result self.new }
    {
        if self.site.is_some() {
            return Err(Ground::SiteOrder.at(0));
        }
        let site = Site::accept(values)?;
        self.site = Some(site);
        Ok(())
    }

    // A call on the sheet, at the site, with the code's curve for its soil.
    fn ask_by(&mut self, rule: RuleChoice, call: &Call) -> Result<(), Fault>
        ensures { Does self.old (ask_deed [] (λ t. asked t (code_curve t.soil) (chosen rule) call.now)) result self.new }
    {
        let site = self.accepted_site()?;
        let spectrum = CodeCurve {
            soil: site.terms.soil,
        };
        let shaking = Shaking {
            site: &site,
            spectrum: &spectrum,
        };
        perform(&mut self.sheet, &shaking, &rule, call)
    }

    // A call that is no modal run, so that any rule serves.
    fn ask(&mut self, call: &Call) -> Result<(), Fault>
        ensures { Does self.old (ask_deed [] (λ t. asked t (code_curve t.soil) squares call.now)) result self.new }
    {
        self.ask_by(RuleChoice::SumOfSquares, call)
    }

    // A modal run by the rule of a number.
    fn take_modal(&mut self, rule: u8) -> Result<(), Fault>
        ensures { Does self.old (deed (modal_row rule)) result self.new }
    {
        let _ = self.accepted_site()?;
        let rule = RuleChoice::try_from(rule).map_err(|_| Ground::NoSuchRule.at(1))?;
        self.ask_by(rule, &Call::Modal)
    }

    // What a record that was read asks for.
    fn take_read(&mut self, read: Record<'_>) -> Result<(), Fault>
        ensures { Does self.old (deed (told read.entry)) result self.new }
    {
        match read {
            Record::Site { values } => self.take_site(&values),
            Record::Floor { height, weight } => self.ask(&Call::Floor { height, weight }),
            Record::Reweigh { floor, weight } => self.ask(&Call::Reweigh { floor, weight }),
            Record::Mode {
                period,
                count,
                ordinates,
            } => self.take_mode(period, count, ordinates),
            Record::Strike { mode } => self.ask(&Call::Strike { mode }),
            Record::Static => self.ask(&Call::Static),
            Record::Modal { rule } => self.take_modal(rule),
        }
    }

    // A mode with the ordinates of a record.
    fn take_mode(&mut self, period: u16, count: u8, ordinates: &[u8]) -> Result<(), Fault>
        ensures { Does self.old (deed (mode_row period count ordinates.now)) result self.new }
    {
        let shape = ModeShape {
            period,
            count,
            ordinates: decode_ordinates(ordinates),
        };
        self.ask(&Call::Mode { shape })
    }

    // Takes one record, or refuses it and stays as it was.
    pub fn take(&mut self, bytes: &[u8]) -> Result<(), Fault>
        ensures takes { Takes self.old (record_of bytes.now) result self.new }
        ensures carries { CarriesOn self.old bytes.now result self.new }
    {
        let record = read_record(bytes)?;
        self.take_read(record)
    }
}
