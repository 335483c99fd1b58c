// A script is a row of steps. A step is a letter and a number, low byte first:
//   T n   a title of the n bytes that follow        N 0   a new session
//   S n   load a survey of the n bytes that follow  V n   load a vehicle of the n bytes that follow
//   R p   rate the place p                          J n   judge with a list of n entries
//   Y n   judge a yard with a list: of the n bytes that follow, the first two are the list's entries, the others the yard
//   B n   judge two surveys with a list: of the n bytes that follow, the first two are the list's entries, the next two the length of the
//         first survey, the others the first and the second
//   C n   convert a vehicle file into a buffer: of the n bytes that follow, the first is the version wanted, the next two the buffer's length,
//         the others the file
//   M n   join two surveys into a buffer: of the n bytes that follow, the first two are the buffer's length, the next two the length of the
//         first survey, the others the first and the second
//   G n   the readings of a gauge: of the n bytes that follow, the first two are the place, then four each the bits of empty, loaded and after
//   K n   couple two vehicles: of the n bytes that follow, the first two are the gap, the next two the length of the first vehicle, the others
//         the first and the second
#![tactic(auto)]

mod buffers;
mod calls;
pub mod out;
pub mod print;

ghost use Rattle.std.specs.Prelude.{◌+◌, ◌≤◌, ◌<◌, length};

use convert::Wanted;
use files::words::word_at;
use out::Out;
use section::Cm;
use session::Session;

// A step's letter and number.
const HEAD: usize = 1 + NUMBER;

// The bytes of a number.
const NUMBER: usize = 2;

fn number_at(bytes: &[u8], at: usize) -> usize
    requires { at + 1 < length bytes.now }
    ensures { result < 65536 }
{
    usize::from(word_at(bytes, at))
}

// Whether the number of a step is that of the bytes that follow it.
fn has_bytes(letter: u8) -> bool {
    matches!(
        letter,
        b'T' | b'S' | b'V' | b'Y' | b'B' | b'C' | b'M' | b'G' | b'K'
    )
}

// A number and two files, of which the first one's length stands behind the number.
#[derive(Drop)]
struct Pair<'a> {
    number: usize,
    first: &'a [u8],
    second: &'a [u8],
}

// None where the script is cut within the first file or before it.
fn pair_of(bytes: &[u8]) -> Option<Pair<'_>> {
    if bytes.len() < 2 * NUMBER {
        return None;
    }
    let files = &bytes[2 * NUMBER..];
    let length = number_at(bytes, NUMBER);
    if files.len() < length {
        return None;
    }
    Some(Pair {
        number: number_at(bytes, 0),
        first: &files[..length],
        second: &files[length..],
    })
}

// The bytes of a step that is cut, or of a title, are printed. A step hands the next one's session on and no Option of it: it is large, and
// each such place would be cleared at every step.
fn cut(out: &mut Out, session: Session, bytes: &[u8]) -> Session {
    print::line(out, bytes);
    session
}

// The loads stand apart for the same reason: in `run_step` itself what they hand back would be cleared at every step.
fn load_survey(out: &mut Out, session: Session, bytes: &[u8]) -> Session {
    calls::told(out, b"survey", session.load_survey(bytes))
}

fn load_vehicle(out: &mut Out, session: Session, bytes: &[u8]) -> Session {
    calls::told(out, b"vehicle", session.load_vehicle(bytes))
}

fn judge_yard(out: &mut Out, session: Session, bytes: &[u8]) -> Session {
    if bytes.len() < NUMBER {
        return cut(out, session, bytes);
    }
    let entries = number_at(bytes, 0);
    calls::judge_yard(out, session, &bytes[NUMBER..], entries)
}

fn judge_between(out: &mut Out, session: Session, bytes: &[u8]) -> Session {
    let Some(pair) = pair_of(bytes) else {
        return cut(out, session, bytes);
    };
    calls::judge_between(out, session, pair.first, pair.second, pair.number)
}

fn join(out: &mut Out, session: Session, bytes: &[u8]) -> Session {
    let Some(pair) = pair_of(bytes) else {
        return cut(out, session, bytes);
    };
    buffers::join_with(out, pair.first, pair.second, pair.number);
    session
}

fn couple(out: &mut Out, session: Session, bytes: &[u8]) -> Session {
    let Some(pair) = pair_of(bytes) else {
        return cut(out, session, bytes);
    };
    let after = session.couple(pair.first, pair.second, Cm(pair.number as u64));
    calls::told(out, b"couple", after)
}

// Where another version is wanted the step is cut, too.
fn convert(out: &mut Out, session: Session, bytes: &[u8]) -> Session {
    if bytes.len() < 1 + NUMBER {
        return cut(out, session, bytes);
    }
    // Stays: a match in its one place and no TryFrom.
    let wanted = match bytes[0] {
        1 => Wanted::Version1,
        2 => Wanted::Version2,
        _ => return cut(out, session, bytes),
    };
    let room = number_at(bytes, 1);
    buffers::convert_with(out, &bytes[1 + NUMBER..], wanted, room);
    session
}

// The bytes of a float's bits.
const BITS: usize = 4;

// Stays: as vehicles has it for an axle; a public function for a program's sake is no plainer.
fn bits_at(bytes: &[u8], at: usize) -> u32
    requires { at + 4 ≤ length bytes.now }
{
    u32::from_le_bytes([bytes[at], bytes[at + 1], bytes[at + 2], bytes[at + 3]])
}

// A place and three readings.
fn gauge(out: &mut Out, session: Session, bytes: &[u8]) -> Session {
    if bytes.len() < NUMBER + 3 * BITS {
        return cut(out, session, bytes);
    }
    let place = u64::from(word_at(bytes, 0));
    let bits = [
        bits_at(bytes, NUMBER),
        bits_at(bytes, NUMBER + BITS),
        bits_at(bytes, NUMBER + 2 * BITS),
    ];
    calls::gauge(out, session, place, bits)
}

fn run_step(out: &mut Out, session: Session, letter: u8, number: usize, bytes: &[u8]) -> Session {
    // Stays: a match and no table of functions, since the steps are the letters of a file and take different numbers and files.
    match letter {
        b'N' => {
            print::line(out, b"new");
            Session::new()
        }
        b'S' => load_survey(out, session, bytes),
        b'V' => load_vehicle(out, session, bytes),
        b'R' => calls::rate(out, session, number as u64),
        b'J' => calls::judge(out, session, number),
        b'Y' => judge_yard(out, session, bytes),
        b'B' => judge_between(out, session, bytes),
        b'C' => convert(out, session, bytes),
        b'M' => join(out, session, bytes),
        b'G' => gauge(out, session, bytes),
        b'K' => couple(out, session, bytes),
        _ => cut(out, session, bytes),
    }
}

pub fn run(out: &mut Out, script: &[u8]) {
    let mut session = Session::new();
    let mut rest = script;
    // Stays: no `for`, since a step tells how many bytes it has.
    while HEAD <= rest.len() {
        let letter = rest[0];
        let number = number_at(rest, 1);
        let behind = &rest[HEAD..];
        // A cut script ends a step's bytes.
        let length = if has_bytes(letter) {
            number.min(behind.len())
        } else {
            0
        };
        session = run_step(out, session, letter, number, &behind[..length]);
        rest = &behind[length..];
    }
}
