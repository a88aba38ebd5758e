ghost use Rattle.std.specs.Prelude.{◌≡◌, ◌+◌, ◌≤◌, ◌++◌, MatchResult};
ghost use Rattle.arrayvec.specs.ArrayString.{array_string_len};
ghost use Rattle.print.specs.Texts.{line_text, text_of};
ghost use Rattle.print.specs.Writing.{Printed, TooShort};

use crate::storeys::{Figures, Storeys};
use crate::text::{push_number, write_out};
use arrayvec::ArrayString;
use standard::fault::{Fault, Ground};

// Room for the base shear and the lines of forty storeys with the longest numbers.
const ROOM: usize = 2586;

// Puts the line of a storey at the end.
fn push_line(text: &mut ArrayString<ROOM>, storey: usize, figures: &Figures)
    requires { array_string_len text.old + 64 ≤ ROOM }
    ensures line { text.new.bytes ≡ text.old.bytes ++ line_text storey figures.now }
    ensures short { array_string_len text.new ≤ array_string_len text.old + 64 }
{
    push_number(text, storey);
    text.push_str(" ");
    push_number(text, figures.design);
    text.push_str(" ");
    push_number(text, figures.force);
    text.push_str("\n");
}

// The base shear and a line for each storey, the roof first; `none` of no storey.
fn storeys_text(storeys: &Storeys<'_>) -> ArrayString<ROOM>
    ensures { result.bytes ≡ text_of storeys.now.figures.now }
{
    let mut text = ArrayString::new();
    let Some(lowest) = storeys.figures.first() else {
        text.push_str("none\n");
        return text;
    };
    text.push_str("base ");
    push_number(&mut text, lowest.design);
    text.push_str("\n");
    for (i, figures) in storeys.figures.iter().enumerate().rev() {
        push_line(&mut text, i + 1, figures);
    }
    text
}

// Prints the storeys if the buffer has room; else names the bytes needed, and leaves the buffer as it was.
pub fn print_storeys(storeys: &Storeys<'_>, buffer: &mut [u8]) -> Result<usize, Fault>
    ensures cases { MatchResult result
        (λ n. Printed (text_of storeys.now.figures.now) buffer.old buffer.new n)
        (λ f. TooShort (text_of storeys.now.figures.now) buffer.old buffer.new f) }
{
    let text = storeys_text(storeys);
    let needed = text.len();
    if buffer.len() < needed {
        return Err(Ground::PrintBuffer.at(needed as u32));
    }
    Ok(write_out(text.as_str(), buffer))
}
