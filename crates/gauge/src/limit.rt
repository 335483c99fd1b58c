// The limit of a deflection. Document 02, request 11: span/180 for kinds 1, 2 and 7, span/300 for the rest, a fifth more for class 1.
ghost use Rattle.std.specs.Prelude.{◌≡◌, ◌*◌, ◌≤◌, ◌<◌};
ghost use Rattle.section.specs.Fraction.{over, at_most};
ghost use Rattle.member.specs.Fields.{SPAN, field};
ghost use Rattle.member.specs.Format.{AllowedMember};
ghost use Rattle.member.specs.Kind.{kind_number};
ghost use Rattle.gauge.specs.Limit.{span_mm, span_divisor, limit};
ghost use Rattle.gauge.specs.Whole.{fifths_of};

use member::kind::Kind;
use member::record::Member;
use section::Mm;

// Stays: a function and no `From`, which could not ask for the bound.
// 10 mm to the centimetre. No number of an allowed record is above 10,000.
fn span_in_mm(m: Member) -> Mm
    requires { field m SPAN ≤ 10000 }
    ensures { result.0 ≡ span_mm m }
{
    Mm(10 * m.span().0)
}

// What the span is divided by: of beams 180, of chords and joints 300.
fn span_divisor(kind: Kind) -> u64
    ensures { result ≡ span_divisor (kind_number kind) }
{
    match kind {
        Kind::Stringer | Kind::CrossBeam | Kind::CloseStringer => 180,
        _ => 300,
    }
}

// A fifth more for class 1.
// Stays: the class is a plain number, as `Vehicle` has it and `gauge` promises its answer of every u8.
fn fifths(class: u8) -> u64
    ensures { result ≡ fifths_of class }
{
    match class {
        1 => 6,
        _ => 5,
    }
}

// Whether so many 64ths of a millimetre are at most the limit, by multiplying out.
#[tactic(auto, using(crate::proofs::Limits::divisor_cap, crate::proofs::Limits::fifths_cap))]
pub fn is_within(count: u64, m: Member, class: u8) -> bool
    requires { (count < 32768) × AllowedMember m }
    ensures { result ≡ at_most (over count 64) (limit m class) }
{
    let divisor = span_divisor(m.kind());
    let span = span_in_mm(m);
    count * (divisor * 5) <= span.0 * fifths(class) * 64
}
