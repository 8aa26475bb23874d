// Reads a sheet on standard input and says what it describes, or why it is refused.
#![tactic(auto)]

ghost use Rattle.std.specs.Prelude.{◌≤◌, length, IfOk};

use sheet::read::read;
use std::io;
use std::io::Read;

// One byte more than a sheet may have, so that a longer text is seen to be too long.
const TEXT_BYTES: usize = 4097;

// As many numbers as the largest sheet has.
const SHEET_PLACES: usize = 452;

// Fills `text` from standard input, and answers how many bytes came. It asks for all at once, so that a text that comes as one
// message is whole, and needs no heap.
fn read_input(rt: &HostRuntime, text: &mut [u8]) -> io::Result<usize>
    ensures fits { IfOk result (λ n. n ≤ length text.old) }
{
    let mut input = rt.stdin();
    let mut len = 0;
    while len < text.len() {
        let count = input.read(&mut text[len..])?;
        if count == 0 {
            break;
        }
        len += count;
    }
    Ok(len)
}

fn main(rt: HostRuntime) -> io::Result<()> {
    let mut text = [0; TEXT_BYTES];
    let len = read_input(&rt, &mut text)?;
    let mut list = [0; SHEET_PLACES];
    match read(&text[..len], &mut list) {
        Ok(_) => println!(rt; "sheet {} {} {}", list[0], list[1], list[2]),
        Err(fault) => println!(rt; "{fault}"),
    }
}
