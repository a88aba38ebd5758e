// The trial: stored decks and lists of calls, each held to what independent calculators say of it.
#![tactic(auto)]

mod case;
mod decks;
mod line;
mod sheets;
mod tally;
mod told;

use crate::decks::try_decks;
use crate::sheets::try_cases;

fn main(rt: HostRuntime) -> anyhow::Result<()> {
    let decks = try_decks(&rt)?;
    println!(rt; "{decks}")?;
    let sheets = try_cases(&rt, "sheets.txt", "lists of calls")?;
    println!(rt; "{sheets}")?;
    let buildings = try_cases(&rt, "buildings.txt", "worked buildings")?;
    println!(rt; "{buildings}")?;
    Ok(())
}
