// The calls of a session, each with its answer printed. The next step goes on with the session that the call handed back.
ghost use Rattle.std.specs.Prelude.{◌≤◌, ◌<◌, length};

use crate::out::Out;
use crate::print;
use crate::print::{Fields, MOST_JUDGEMENTS};
use gauge::Readings;
use rating::judging::{Judgement, Verdict};
use section::KgfPerM;
use session::{After, Session};

// The longest list that a script can ask for: two entries a member of the longest survey, and some more.
const MOST_ENTRIES: usize = 520;

// Entry i of a lent list holds KNOWN + i, so that entries that were kept are seen.
const KNOWN: u64 = 1000000;

// A call's line, and the session that it handed back.
pub fn told<T: Fields>(out: &mut Out, name: &[u8], after: After<T>) -> Session {
    out.bytes(name);
    print::answer(out, after.answer);
    after.session
}

pub fn rate(out: &mut Out, session: Session, place: u64) -> Session {
    out.bytes(b"rate");
    print::number(out, place);
    told(out, b"", session.rate(place))
}

fn too_long(out: &mut Out, session: Session) -> Session {
    print::line(out, b"no list is so long");
    session
}

fn known_list() -> [u64; MOST_ENTRIES] {
    let mut list = [0u64; MOST_ENTRIES];
    for (i, entry) in list.iter_mut().enumerate() {
        *entry = KNOWN + i as u64;
    }
    list
}

// Stays: three calls with a lent list of their own, as buffers.rt has two with a buffer: a function that took the call as a closure would have
// to say what it asks of the list.
// Judges with the list, and prints the whole list as it is then.
pub fn judge(out: &mut Out, session: Session, entries: usize) -> Session {
    if MOST_ENTRIES < entries {
        return too_long(out, session);
    }
    let mut known = known_list();
    let list = &mut known[..entries];
    let session = told(out, b"judge", session.judge(list));
    print::list(out, list);
    session
}

// Judges two surveys with the list, and prints the whole list as it is then.
pub fn judge_between(
    out: &mut Out,
    session: Session,
    first: &[u8],
    second: &[u8],
    entries: usize,
) -> Session {
    if MOST_ENTRIES < entries {
        return too_long(out, session);
    }
    let mut known = known_list();
    let list = &mut known[..entries];
    let session = told(out, b"between", session.judge_between(first, second, list));
    print::list(out, list);
    session
}

fn known_judgement(i: usize) -> Judgement
    requires { i < 40 }
{
    let number = KNOWN + i as u64;
    Judgement {
        figure: KgfPerM(number),
        governing: number,
        verdict: Verdict::Refuse,
        margin: number as i64,
    }
}

// Judges the yard with the list, and prints the whole list as it is then.
pub fn judge_yard(out: &mut Out, session: Session, yard: &[u8], entries: usize) -> Session {
    if MOST_JUDGEMENTS < entries {
        return too_long(out, session);
    }
    let mut known = [known_judgement(0); MOST_JUDGEMENTS];
    for (i, entry) in known.iter_mut().enumerate() {
        *entry = known_judgement(i);
    }
    let list = &mut known[..entries];
    let session = told(out, b"yard", session.judge_yard(yard, list));
    print::list(out, list);
    session
}

// The pattern of the infinity: with the sign bit taken off, those of a NaN are above it.
const INFINITY: u32 = 2139095040;

const SIGN: u32 = 2147483648;

// The float of a pattern. Of a NaN's pattern none can be made, so a NaN is worked out; the call knows only one.
fn float_of(bits: u32) -> f32 {
    if INFINITY < bits % SIGN {
        f32::NAN
    } else {
        f32::from_bits(bits)
    }
}

// The readings of a gauge by their bits.
pub fn gauge(out: &mut Out, session: Session, place: u64, bits: [u32; 3]) -> Session {
    let readings = Readings {
        empty: float_of(bits[0]),
        loaded: float_of(bits[1]),
        after: float_of(bits[2]),
    };
    told(out, b"gauge", session.gauge(place, readings))
}
