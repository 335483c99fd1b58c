// The answers as text: a space before every field, and the document's number and place of a refusal.
use crate::out::Out;
use between::Between;
use files::Refusal;
use gauge::Deflection;
use rating::judging::{Judgement, Rating, Verdict};

// The longest list of judgements that a script can ask for.
pub const MOST_JUDGEMENTS: usize = 40;

pub fn line(out: &mut Out, bytes: &[u8]) {
    out.bytes(bytes);
    out.bytes(b"\n");
}

pub fn number(out: &mut Out, n: u64) {
    out.bytes(b" ");
    out.print(n);
}

// What a call that succeeds answers.
pub trait Fields {
    fn print(self, out: &mut Out);
}

// What was loaded is taken.
impl Fields for () {
    fn print(self, out: &mut Out) {
        out.bytes(b" taken");
    }
}

// How many vehicles pass, how many bytes were written, or an entry of a lent list.
impl Fields for u64 {
    fn print(self, out: &mut Out) {
        number(out, self);
    }
}

impl Fields for Verdict {
    fn print(self, out: &mut Out) {
        out.bytes(b" ");
        out.print(self);
    }
}

impl Fields for Rating {
    fn print(self, out: &mut Out) {
        number(out, self.permitted.0);
        number(out, self.load.0);
        self.verdict.print(out);
        out.bytes(b" ");
        out.print(self.margin);
    }
}

// Stays: beside that of `Rating`, since the fields are others.
impl Fields for Judgement {
    fn print(self, out: &mut Out) {
        number(out, self.figure.0);
        number(out, self.governing);
        self.verdict.print(out);
        out.bytes(b" ");
        out.print(self.margin);
    }
}

// Stays: no Display of these two, whose words are of the script only; a float has no text of its own there.
impl Fields for Between {
    fn print(self, out: &mut Out) {
        out.bytes(match self {
            Between::All => b" all",
            Between::None => b" none",
            Between::Undecided => b" undecided",
        });
    }
}

impl Fields for Deflection {
    fn print(self, out: &mut Out) {
        match self {
            Deflection::Within(x) => {
                out.bytes(b" within");
                bits(out, x);
            }
            Deflection::Over(x) => {
                out.bytes(b" over");
                bits(out, x);
            }
        }
    }
}

// The bits of a float; a NaN has none of its own.
fn bits(out: &mut Out, x: f32) {
    if x.is_nan() {
        out.bytes(b" NaN");
    } else {
        number(out, u64::from(x.to_bits()));
    }
}

// The rest of a call's line.
pub fn answer<T: Fields>(out: &mut Out, answer: Result<T, Refusal>) {
    match answer {
        Ok(fields) => fields.print(out),
        Err(refusal) => {
            out.bytes(b" ");
            out.print(refusal);
        }
    }
    out.bytes(b"\n");
}

// A buffer's bytes, two digits each; no space behind the word where it is empty.
pub fn bytes(out: &mut Out, buffer: &[u8]) {
    out.bytes(b"bytes");
    if !buffer.is_empty() {
        out.bytes(b" ");
    }
    for n in buffer {
        out.hex(*n);
    }
    out.bytes(b"\n");
}

// A lent list as it is after the call.
pub fn list<T: Fields + Copy>(out: &mut Out, entries: &[T]) {
    out.bytes(b"list");
    for entry in entries {
        entry.print(out);
    }
    out.bytes(b"\n");
}
