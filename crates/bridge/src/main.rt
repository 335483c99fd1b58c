// Rates the bridge on standard input, survey then vehicle: a line for each member, then the bridge's. Where a file is refused the
// only line is its number and place.
#![tactic(auto)]

mod input;
mod report;

use input::{ENOUGH, load_read};
use input_bytes::read_full;
use report::print_report;
use std::io;
use std::io::{Read, Stdin};

// Reads once, and answers whether there may be more.
fn drop_some(input: &mut Stdin) -> io::Result<bool> {
    let mut buffer = [0u8; 65536];
    let n = input.read(&mut buffer)?;
    Ok(n > 0)
}

// Reads what is left of the input, so that whoever writes it is not cut off. A proved loop has to end, and nothing says that an
// input does: the loop counts its turns, to a number that no run reaches.
fn drop_rest(input: &mut Stdin) -> io::Result<()> {
    for _ in 0..u64::MAX {
        if !drop_some(input)? {
            break;
        }
    }
    Ok(())
}

fn main(rt: HostRuntime) -> io::Result<()> {
    let mut stdin = rt.stdin();
    let mut input = [0u8; ENOUGH];
    let n = read_full(&mut stdin, &mut input)?;
    drop_rest(&mut stdin)?;
    print_report(&rt, load_read(&input, n))
}
