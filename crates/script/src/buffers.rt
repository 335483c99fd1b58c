// The calls that write into a lent buffer, with the answer and the whole buffer printed. They need no session.
use crate::out::Out;
use crate::print;
use convert::{Wanted, convert};
use files::Refusal;
use join::join;

// The longest buffer that a script can ask for: more than the longest survey has.
const MOST_BYTES: usize = 8200;

// What a byte of a lent buffer holds, so that bytes that were kept are seen.
const KNOWN: u8 = 0xEE;

fn told(out: &mut Out, name: &[u8], answer: Result<u64, Refusal>, buffer: &[u8]) {
    out.bytes(name);
    print::answer(out, answer);
    print::bytes(out, buffer);
}

// A vehicle file, into a buffer of so many bytes.
pub fn convert_with(out: &mut Out, file: &[u8], wanted: Wanted, room: usize) {
    if MOST_BYTES < room {
        print::line(out, b"no buffer is so long");
        return;
    }
    let mut known = [KNOWN; MOST_BYTES];
    let buffer = &mut known[..room];
    let answer = convert(file, wanted, buffer);
    told(out, b"convert", answer, buffer);
}

// Two survey files, into a buffer of so many bytes.
pub fn join_with(out: &mut Out, first: &[u8], second: &[u8], room: usize) {
    if MOST_BYTES < room {
        print::line(out, b"no buffer is so long");
        return;
    }
    let mut known = [KNOWN; MOST_BYTES];
    let buffer = &mut known[..room];
    let answer = join(first, second, buffer);
    told(out, b"join", answer, buffer);
}
