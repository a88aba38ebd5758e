// Lists of calls, and what is wanted after each.
use crate::case::Case;
use crate::line::{Line, read_line};
use crate::tally::Tally;
use std::fs;

// Tries the cases of a file.
pub fn try_cases<'a>(rt: &HostRuntime, path: &str, of: &'a str) -> anyhow::Result<Tally<'a>> {
    let heap = rt.alloc();
    let text = fs::read_to_string(rt, path)?;
    let mut tally = Tally::new(of);
    let mut case = Case::new(heap)?;
    for line in text.lines() {
        let words: Vec<&str> = line.split(' ').collect(heap)?;
        match read_line(heap, words.as_slice())? {
            Line::End => {
                let is_as_wanted = case.close()?;
                tally.count(is_as_wanted);
                if !is_as_wanted {
                    println!(rt; "{path}: case {} differs", tally.tried)?;
                }
                case = Case::new(heap)?;
            }
            line => case.read(line)?,
        }
    }
    Ok(tally)
}
