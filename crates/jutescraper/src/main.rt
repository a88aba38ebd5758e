// Reads a deck on standard input, says which records are refused, and prints what the deck comes to.
#![tactic(auto)]

ghost use Rattle.std.specs.Prelude.{◌≤◌, IfOk};

use anyhow::anyhow;
use deck::{Desk, RECORD_LENGTH};
use print::{LINE, print_refusal};
use std::io;
use std::io::{BufReader, BufWriter, Read, Write};
use std::process::ExitCode;

// Forty storeys with the largest shears and forces that there are take less than 1300 bytes.
const PAGE: usize = 2048;

// Fills the buffer as far as the input goes, and answers how many bytes came: fewer than RECORD_LENGTH only where the input ended.
fn fill(input: &mut impl Read, buffer: &mut [u8; RECORD_LENGTH]) -> io::Result<usize>
    ensures { IfOk result (λ n. n ≤ RECORD_LENGTH) }
{
    let mut have = 0;
    while have < RECORD_LENGTH {
        let more = input.read(&mut buffer[have..RECORD_LENGTH])?;
        if more == 0 {
            break;
        }
        have += more;
    }
    Ok(have)
}

// Takes the records one by one, and writes what is refused: it is out before the program waits for more input.
fn take_records(rt: &HostRuntime, output: &mut impl Write, desk: &mut Desk) -> anyhow::Result<()> {
    let mut input = BufReader::new(rt.alloc(), rt.stdin())?;
    let mut buffer = [0; RECORD_LENGTH];
    let mut line = [0; LINE];
    for record in 1..u64::MAX {
        if input.buffer().len() < RECORD_LENGTH {
            output.flush()?;
        }
        let have = fill(&mut input, &mut buffer)?;
        if have == 0 {
            break;
        }
        if let Err(fault) = desk.take(&buffer[0..have]) {
            let length = print_refusal(record, &fault, &mut line);
            output.write_all(&line[0..length])?;
        }
    }
    Ok(())
}

fn print_desk(output: &mut impl Write, desk: &Desk) -> anyhow::Result<()> {
    let mut page = [0; PAGE];
    let length = desk
        .print(&mut page)
        .map_err(|_| anyhow!("the print is longer than its page"))?;
    output.write_all(&page[0..length])?;
    output.flush()?;
    Ok(())
}

fn work(rt: &HostRuntime) -> anyhow::Result<()> {
    let mut output = BufWriter::new(rt.alloc(), rt.stdout())?;
    let mut desk = Desk::new();
    take_records(rt, &mut output, &mut desk)?;
    print_desk(&mut output, &desk)
}

// Where reading or writing fails, says so on standard error; the status tells it too, also where that line cannot be written.
fn main(rt: HostRuntime) -> ExitCode {
    match work(&rt) {
        Ok(()) => ExitCode::SUCCESS,
        Err(error) => {
            let _ = eprintln!(rt; "jutescraper: {error}");
            ExitCode::FAILURE
        }
    }
}
