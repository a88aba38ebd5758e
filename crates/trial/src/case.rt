// One case: a site, a curve, a rule and calls, worked on one sheet, and held to what is told of it.
use crate::line::Line;
use crate::told::Told;
use anyhow::anyhow;
use base_shear::shaking::Shaking;
use combination::{Grouping, RuleChoice};
use sheet::{Call, Sheet, perform};
use spectra::curve::SiteCurve;
use spectra::spectrum::{CodeCurve, Spectrum};
use standard::fault::Fault;
use standard::site::Site;
use standard::values::SiteValues;
use std::alloc::Global;

// A plain rule, or up to three groupings over one.
#[derive(Clone, Copy)]
pub enum CaseRule {
    Plain(RuleChoice),
    Grouped(Grouping<RuleChoice>),
    Twice(Grouping<Grouping<RuleChoice>>),
    Thrice(Grouping<Grouping<Grouping<RuleChoice>>>),
}

// What the calls of a case are made with. Without a curve of its own it has the code's for its soil.
#[derive(Clone, Copy)]
struct Terms {
    site: Site,
    curve: Option<SiteCurve>,
    rule: CaseRule,
}

// The site of a case that gives none.
const PLAIN: SiteValues = SiteValues {
    zone: 2,
    soil: 1,
    importance: 10,
    system: 1,
    formula: 1,
    plan: 0,
    base: 0,
};

// A case as far as it was read and worked: a call is made when something is first told of it or of a later one.
#[derive(Drop)]
pub struct Case {
    terms: Terms,
    calls: Vec<Call>,
    answers: Vec<Result<(), Fault>>,
    sheet: Sheet,
    // the call after which storeys were looked at last
    after: u64,
    // storeys that stood after the calls looked at, and lines that told of one
    standing: u64,
    storeys: u64,
    // lines that told of a refusal
    refusals: u64,
    differences: u64,
}

impl CaseRule {
    fn ask<C: Spectrum>(
        &self,
        sheet: &mut Sheet,
        shaking: &Shaking<'_, C>,
        call: &Call,
    ) -> Result<(), Fault> {
        match self {
            CaseRule::Plain(rule) => perform(sheet, shaking, rule, call),
            CaseRule::Grouped(rule) => perform(sheet, shaking, rule, call),
            CaseRule::Twice(rule) => perform(sheet, shaking, rule, call),
            CaseRule::Thrice(rule) => perform(sheet, shaking, rule, call),
        }
    }
}

impl Terms {
    // Makes a call on the sheet.
    fn ask(&self, sheet: &mut Sheet, call: &Call) -> Result<(), Fault> {
        match self.curve {
            Some(curve) => self.rule.ask(
                sheet,
                &Shaking {
                    site: &self.site,
                    spectrum: &curve,
                },
                call,
            ),
            None => self.rule.ask(
                sheet,
                &Shaking {
                    site: &self.site,
                    spectrum: &CodeCurve::from(&self.site),
                },
                call,
            ),
        }
    }
}

// How many storeys read as present.
fn present(sheet: &Sheet) -> u64 {
    (0..=u8::MAX)
        .filter(|storey| sheet.reading(*storey).is_some())
        .count() as u64
}

impl Case {
    pub fn new(heap: Global) -> anyhow::Result<Case> {
        let site = Site::accept(&PLAIN).map_err(|_| anyhow!("a site is refused"))?;
        Ok(Case {
            terms: Terms {
                site,
                curve: None,
                rule: CaseRule::Plain(RuleChoice::SumOfSquares),
            },
            calls: Vec::new(heap),
            answers: Vec::new(heap),
            sheet: Sheet::new(),
            after: 0,
            standing: 0,
            storeys: 0,
            refusals: 0,
            differences: 0,
        })
    }

    // Takes one line of the case.
    pub fn read(&mut self, line: Line) -> anyhow::Result<()> {
        match line {
            Line::Site(site) => self.terms.site = site,
            Line::Curve(curve) => self.terms.curve = Some(curve),
            Line::Rule(rule) => self.terms.rule = rule,
            Line::Call(call) => self.calls.push(call)?,
            Line::Told(told) => self.hold(&told)?,
            Line::End | Line::Other => {}
        }
        Ok(())
    }

    // Makes the calls up to this one, counted from 1.
    fn reach(&mut self, last: u64) -> anyhow::Result<()> {
        let made = self.answers.len();
        let left = self.calls.as_slice().get(made..).unwrap_or(&[]);
        for call in left
            .iter()
            .take(usize::try_from(last)?.saturating_sub(made))
        {
            let answer = self.terms.ask(&mut self.sheet, call);
            self.answers.push(answer)?;
        }
        Ok(())
    }

    // Looks whether what is told is so.
    fn hold(&mut self, told: &Told) -> anyhow::Result<()> {
        let is_so = match told {
            Told::Refused { call, refusal } => {
                self.reach(*call)?;
                self.refusals = self.refusals.saturating_add(1);
                let place = usize::try_from(*call)?.saturating_sub(1);
                match self.answers.get(place) {
                    Some(Err(fault)) => refusal.is(fault),
                    _ => false,
                }
            }
            Told::Storeys { call } => {
                self.look_after(*call)?;
                true
            }
            Told::Storey {
                call,
                storey,
                reading,
            } => {
                self.look_after(*call)?;
                self.storeys = self.storeys.saturating_add(1);
                self.sheet.reading(*storey) == Some(*reading)
            }
        };
        if !is_so {
            self.differences = self.differences.saturating_add(1);
        }
        Ok(())
    }

    // The storeys after a call are to be told of: counts them, once.
    fn look_after(&mut self, call: u64) -> anyhow::Result<()> {
        self.reach(call)?;
        if self.after != call {
            self.after = call;
            self.standing = self.standing.saturating_add(present(&self.sheet));
        }
        Ok(())
    }

    // Makes the calls that are left. Whether all that was told is so, and each refusal and each storey that stood was told of.
    pub fn close(&mut self) -> anyhow::Result<bool> {
        self.reach(u64::MAX)?;
        let refused = self
            .answers
            .as_slice()
            .iter()
            .filter(|answer| answer.is_err())
            .count() as u64;
        Ok(self.differences == 0 && refused == self.refusals && self.standing == self.storeys)
    }
}
