// What a sheet reads, as lines to print.
ghost use Rattle.std.specs.Prelude.{◌≡◌, MatchResult};
ghost use Rattle.print.specs.Writing.{Printed, TooShort};
ghost use Rattle.sheet.specs.Contents.{reading_of};
ghost use Rattle.deck.specs.Prints.{highest, figures_up_to, sheet_text};

use crate::desk::Desk;
use arrayvec::ArrayVec;
use methods::loads::FLOORS;
use print::{Figures, Storeys, print_storeys};
use sheet::Sheet;
use standard::fault::Fault;

impl Desk {
    // Writes the base shear and the storeys into the buffer, roof first, or `none` without forces.
    pub fn print(&self, buffer: &mut [u8]) -> Result<usize, Fault>
        ensures { MatchResult result (λ n. Printed (sheet_text self.now.sheet) buffer.old buffer.new n) (λ f. TooShort (sheet_text self.now.sheet) buffer.old buffer.new f) }
    {
        let figures = figures_of(self.sheet());
        let storeys = Storeys {
            figures: figures.as_slice(),
        };
        print_storeys(&storeys, buffer)
    }
}

// The figures of the storeys that a sheet reads, lowest first: where one is absent, so are those above it.
fn figures_of(sheet: &Sheet) -> ArrayVec<Figures, FLOORS>
    ensures { result.items ≡ figures_up_to (reading_of sheet.now) (highest (reading_of sheet.now) 40) }
{
    let mut figures = ArrayVec::new();
    for storey in 1..=FLOORS as u8 {
        let Some((_, design, force)) = sheet.reading(storey) else {
            return figures;
        };
        figures.push(Figures { design, force });
    }
    figures
}
