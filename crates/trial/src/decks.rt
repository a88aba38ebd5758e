// Decks, and what the program prints of them.
use crate::tally::Tally;
use anyhow::anyhow;
use deck::{RECORD_LENGTH, answer_deck};
use print::{LINE, print_refusal};
use std::alloc::Global;
use std::fs;

// What the program prints of a deck: the refusals, and the print.
fn printed(heap: Global, deck: &[u8]) -> anyhow::Result<Vec<u8>> {
    let mut answers = vec![in heap; Ok(()); deck.len().div_ceil(RECORD_LENGTH)]?;
    let desk = answer_deck(deck, answers.as_mut_slice());
    let mut text = Vec::new(heap);
    let mut line = [0; LINE];
    for (before, answer) in answers.as_slice().iter().enumerate() {
        if let Err(fault) = answer {
            let length = print_refusal(before as u64 + 1, fault, &mut line);
            text.extend_from_slice(&line[0..length])?;
        }
    }
    let mut page = [0; 2048];
    let length = desk
        .print(&mut page)
        .map_err(|_| anyhow!("a print is longer than its page"))?;
    text.extend_from_slice(&page[0..length])?;
    Ok(text)
}

// A stored file of the deck of a number.
fn stored(rt: &HostRuntime, number: u32, kind: &str) -> anyhow::Result<Vec<u8>> {
    let path = format!(in rt.alloc(); "decks/{number:03}.{kind}")?;
    Ok(fs::read(rt, path.as_str())?)
}

// Whether a deck prints what is wanted.
fn is_as_wanted(rt: &HostRuntime, number: u32) -> anyhow::Result<bool> {
    let deck = stored(rt, number, "deck")?;
    let want = stored(rt, number, "want")?;
    let text = printed(rt.alloc(), deck.as_slice())?;
    Ok(text.as_slice() == want.as_slice())
}

// Tries the stored decks.
pub fn try_decks(rt: &HostRuntime) -> anyhow::Result<Tally<'static>> {
    let mut tally = Tally::new("decks");
    for number in 0..160 {
        let is_as_wanted = is_as_wanted(rt, number)?;
        tally.count(is_as_wanted);
        if !is_as_wanted {
            println!(rt; "deck {number:03} prints something else")?;
        }
    }
    Ok(tally)
}
