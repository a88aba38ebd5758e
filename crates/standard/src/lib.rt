// What the standard lists: refusals, the terms of a site, fractions and measures.
#![tactic(auto)]

ghost use Rattle.standard.specs.Faults.{VerdictLaw};

pub mod fault;
pub mod fraction;
pub mod measures;
pub mod site;
pub mod terms;
pub mod values;

// The law of the verdict, as a theorem that a check asks for.
pub fn verdict_law_stands() -> u8
    ensures { VerdictLaw }
{
    0
}
