// From the bytes of a record to what it says.
ghost use Rattle.std.specs.Prelude.{◌≡◌, ◌+◌, ◌≤◌, ◌==◌, not, sum, position, length, drop, IfSome, slice_index};
ghost use Rattle.standard.specs.Faults.{verdict};
ghost use Rattle.records.specs.Bytes.{number_at};
ghost use Rattle.records.specs.Rows.{record_of, record_refusals, unused_refusals, layout_of, site_at, mode_at, mode_end, told, heard, answer, laid};

use crate::record::Record;
use standard::fault::{Fault, Ground};
use standard::values::SiteValues;
use std::array;

// The length of a record.
pub const RECORD_LENGTH: usize = 96;

// The most ordinates that a record holds.
const MOST_ORDINATES: usize = 46;

// The bytes of a field, which write a number with the high byte first.
fn field<const N: usize>(bytes: &[u8; RECORD_LENGTH], place: usize) -> [u8; N]
    requires { place + N ≤ RECORD_LENGTH }
    ensures { number_at result 0 N ≡ number_at bytes.now place N }
{
    array::from_fn(|k| bytes[place + k])
}

// Whether every byte is 0. It adds them all up whatever they are, so that many bytes are looked at in one step.
fn is_clear(bytes: &[u8]) -> bool
    requires { length bytes.now ≤ RECORD_LENGTH }
    ensures { result ≡ (sum bytes.now == 0) }
{
    bytes.iter().map(|byte| *byte as u32).sum::<u32>() == 0
}

// How many bytes are 0 before the first that is not, where there is one.
fn first_filled(bytes: &[u8]) -> Option<usize>
    ensures { result ≡ position (λ b. not (b == 0)) bytes.now }
{
    bytes.iter().position(|byte| *byte != 0)
}

// Refuses the first byte from `used` on that is not 0.
fn clear_from(bytes: &[u8; RECORD_LENGTH], used: usize) -> Result<(), Fault>
    requires { used ≤ RECORD_LENGTH }
    ensures { result ≡ verdict (unused_refusals used (drop used bytes.now)) }
{
    let unused = &bytes[used..];
    if is_clear(unused) {
        return Ok(());
    }
    match first_filled(unused) {
        Some(clear) => Err(Ground::UnusedByte.at((used + clear) as u32)),
        None => Ok(()),
    }
}

// The seven values of a site.
fn site_values(bytes: &[u8; RECORD_LENGTH]) -> SiteValues
    ensures { result ≡ site_at bytes.now }
{
    SiteValues {
        zone: bytes[1],
        soil: bytes[2],
        importance: bytes[3],
        system: bytes[4],
        formula: bytes[5],
        plan: bytes[6],
        base: u16::from_be_bytes(field(bytes, 7)),
    }
}

// A mode, and where the unused bytes begin: past its ordinates.
fn mode(bytes: &[u8; RECORD_LENGTH]) -> (Record<'_>, usize)
    ensures row { told result.0 ≡ mode_at bytes.now }
    ensures used { result.1 ≡ mode_end bytes.now }
{
    let count = bytes[3];
    let used = 4 + 2 * (count as usize).min(MOST_ORDINATES);
    (
        Record::Mode {
            period: u16::from_be_bytes(field(bytes, 1)),
            count,
            ordinates: &bytes[4..used],
        },
        used,
    )
}

// What the letter says that 96 bytes hold, and where the unused ones begin.
fn layout(bytes: &[u8; RECORD_LENGTH]) -> Option<(Record<'_>, usize)>
    ensures value { laid result ≡ layout_of (slice_index bytes.now 0) bytes.now }
    ensures bound { IfSome result (λ l. l.1 ≤ RECORD_LENGTH) }
{
    match bytes[0] as char {
        'S' => Some((
            Record::Site {
                values: site_values(bytes),
            },
            9,
        )),
        'F' => Some((
            Record::Floor {
                height: u16::from_be_bytes(field(bytes, 1)),
                weight: u32::from_be_bytes(field(bytes, 3)),
            },
            7,
        )),
        'W' => Some((
            Record::Reweigh {
                floor: bytes[1],
                weight: u32::from_be_bytes(field(bytes, 2)),
            },
            6,
        )),
        'M' => Some(mode(bytes)),
        'K' => Some((Record::Strike { mode: bytes[1] }, 2)),
        'E' => Some((Record::Static, 1)),
        'C' => Some((Record::Modal { rule: bytes[1] }, 2)),
        _ => None,
    }
}

// What a record says: only the first 96 bytes are read.
pub fn read_record(bytes: &[u8]) -> Result<Record<'_>, Fault>
    ensures row { heard result ≡ record_of bytes.now }
    ensures verdict { answer (heard result) ≡ verdict (record_refusals bytes.now) }
{
    let Some(whole) = bytes.first_chunk() else {
        return Err(Ground::ShortRecord.at(bytes.len() as u32));
    };
    let (record, used) = layout(whole).ok_or(Ground::UnknownLetter.at(0))?;
    clear_from(whole, used)?;
    Ok(record)
}
