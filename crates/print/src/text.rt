// Text that grows at its end, in fixed room.
ghost use Rattle.std.specs.Prelude.{◌≡◌, ◌+◌, ◌≤◌, ◌++◌, length};
ghost use Rattle.arrayvec.specs.ArrayString.{array_string_len};
ghost use Rattle.print.specs.Writing.{Printed};

use arrayvec::ArrayString;
use itoa::{Buffer, Integer};

// Puts the digits of a number at the end, after a hyphen where it is below 0.
pub(crate) fn push_number<N: Integer, const ROOM: usize>(text: &mut ArrayString<ROOM>, n: N)
    requires { array_string_len text.old + N.MAX_STR_LEN ≤ ROOM }
    ensures digits { text.new.bytes ≡ text.old.bytes ++ N.text n }
    ensures short { array_string_len text.new ≤ array_string_len text.old + N.MAX_STR_LEN }
{
    let mut digits = Buffer::new();
    text.push_str(digits.format(n));
}

// Writes a text at the start of a buffer that has room, and answers where it ends.
pub(crate) fn write_out(text: &str, buffer: &mut [u8]) -> usize
    requires { length text.now ≤ length buffer.old }
    ensures { Printed text.now buffer.old buffer.new result }
{
    let end = text.len();
    buffer[..end].copy_from_slice(text.as_bytes());
    end
}
