// How many were tried.
use std::fmt;

// How many of what were tried, and how many of them differ from what is wanted.
#[derive(Clone, Copy)]
pub struct Tally<'a> {
    of: &'a str,
    pub tried: u32,
    differ: u32,
}

impl<'a> Tally<'a> {
    pub fn new(of: &'a str) -> Tally<'a> {
        Tally {
            of,
            tried: 0,
            differ: 0,
        }
    }

    // One more was tried.
    pub fn count(&mut self, is_as_wanted: bool) {
        self.tried = self.tried.saturating_add(1);
        if !is_as_wanted {
            self.differ = self.differ.saturating_add(1);
        }
    }
}

impl fmt::Display for Tally<'_> {
    fn fmt<W: fmt::Write>(&self, f: &mut fmt::Formatter<W>) -> fmt::Result {
        write!(f, "{} {}, {} differ", self.tried, self.of, self.differ)
    }
}
