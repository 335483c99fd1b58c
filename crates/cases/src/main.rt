// Runs the script of stored cases on standard input and prints what the calls answer. Script and expected output are written by the
// independent reference: (cd host && cargo run --release -p reference --example cases -- ../crates)
#![tactic(auto)]

use input_bytes::read_full;
use script::out::Out;
use script::{print, run};
use std::io;

// A script that fills this is too long: its last steps would be lost.
const SPACE: usize = 524288;

fn main(rt: HostRuntime) -> io::Result<()> {
    let mut stdin = rt.stdin();
    let mut space = [0u8; SPACE];
    let n = read_full(&mut stdin, &mut space)?;
    let mut out = Out::new(rt);
    if n == SPACE {
        print::line(&mut out, b"the script is too long");
    } else {
        run(&mut out, &space[..n]);
    }
    out.end()
}
