ghost use Rattle.standard.specs.Faults.{number_of};
ghost use Rattle.print.specs.Texts.{refusal_text};
ghost use Rattle.print.specs.Writing.{Printed};

use crate::text::{push_number, write_out};
use arrayvec::ArrayString;
use standard::fault::Fault;

// As many bytes as the line of a refusal never needs.
pub const LINE: usize = 64;

// Writes the line that tells of a refused record: its position in the deck, and the number and place of the refusal.
pub fn print_refusal(position: u64, fault: &Fault, line: &mut [u8; LINE]) -> usize
    ensures { Printed (refusal_text position (number_of fault.now.ground) fault.now.place) line.old line.new result }
{
    let mut text = ArrayString::<LINE>::new();
    text.push_str("refused ");
    push_number(&mut text, position);
    text.push_str(" ");
    push_number(&mut text, fault.ground.number());
    text.push_str(" ");
    push_number(&mut text, fault.place);
    text.push_str("\n");
    write_out(text.as_str(), line)
}
