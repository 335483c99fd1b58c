// How two readings of a field are joined, by kind and code of the record.
ghost use Rattle.std.specs.Prelude.{◌≡◌, ◌+◌, ◌/◌};
ghost use Rattle.member.specs.Format.{holds};
ghost use Rattle.join.specs.Rule.{size_fields, section_rule, height_rule, rule_of, agrees, near, joined_number};

use member::record::{CLOSE_STRINGER, DEAD_LOAD, HEIGHT, S1, S2, S3, S4, SPACING, SPAN};
use member::wear::{is_loss, is_rot};

// Stays: kind and code are numbers here and not enums, since `rule_of`, `ListedMustAgree` and `MeanTaken` speak of every number.

#[derive(Clone, Copy)]
pub enum Rule {
    // They must agree.
    MustAgree,
    // They may differ by so much; the mean, an odd half up.
    MeanUp(u16),
    // They may differ by so much; the mean, an odd half down.
    MeanDown(u16),
    // They may differ by any amount; the mean, an odd half up.
    AnyMeanUp,
}

impl Rule {
    // Where the readings must agree, they do.
    pub fn agrees(self, x: u16, y: u16) -> bool
        ensures { result ≡ agrees self x y }
    {
        match self {
            Rule::MustAgree => x == y,
            _ => true,
        }
    }

    // Where the readings may differ by so much only, they differ by no more.
    pub fn near(self, x: u16, y: u16) -> bool
        ensures { result ≡ near self x y }
    {
        match self {
            Rule::MeanUp(apart) | Rule::MeanDown(apart) => x.abs_diff(y) <= apart,
            _ => true,
        }
    }

    // What two readings give: the mean, or the number that both have.
    pub fn joined(self, x: u16, y: u16) -> u16
        ensures { result ≡ joined_number self x y }
    {
        match self {
            Rule::MustAgree => x,
            Rule::MeanUp(_) | Rule::AnyMeanUp => mean_up(x, y),
            Rule::MeanDown(_) => x.midpoint(y),
        }
    }
}

// The mean, an odd half up.
fn mean_up(x: u16, y: u16) -> u16
    ensures { result ≡ (x + y + 1) / 2 }
{
    ((u32::from(x) + u32::from(y) + 1) / 2) as u16
}

// "section sizes (log diameter, width and height, c and a, the area of code 4)"
#[tactic(auto, unfolding(crate::specs::Rule::size_fields))]
fn is_size(code: u16, f: usize) -> bool
    ensures { result ≡ holds f (size_fields code) }
{
    match code {
        1 | 4 | 5 => f == S1,
        2 => matches!(f, S1 | S2),
        3 => matches!(f, S3 | S4),
        _ => false,
    }
}

// A section's fields: sizes and rot "by 1", losses "by any amount"; the rest must agree.
#[tactic(auto, unfolding(crate::specs::Rule::section_rule))]
fn section_rule(code: u16, f: usize) -> Rule
    ensures { result ≡ section_rule code f }
{
    if is_size(code, f) {
        return Rule::MeanDown(1);
    }
    if is_rot(code, f) {
        return Rule::MeanUp(1);
    }
    if is_loss(code, f) {
        return Rule::AnyMeanUp;
    }
    Rule::MustAgree
}

// "truss height .. by 1"; of closely spaced stringers, whose board thickness it is, it must agree.
#[tactic(auto, unfolding(crate::specs::Rule::height_rule))]
fn height_rule(kind: u16) -> Rule
    ensures { result ≡ height_rule kind }
{
    match kind {
        CLOSE_STRINGER => Rule::MustAgree,
        _ => Rule::MeanDown(1),
    }
}

// "spans may differ by 5, .. spacing .. by 1", the dead load "by any amount"; the other fields go by the section or must agree.
#[tactic(auto, unfolding(crate::specs::Rule::rule_of))]
pub fn rule_of(kind: u16, code: u16, f: usize) -> Rule
    ensures { result ≡ rule_of kind code f }
{
    match f {
        SPAN => Rule::MeanUp(5),
        SPACING => Rule::MeanUp(1),
        HEIGHT => height_rule(kind),
        DEAD_LOAD => Rule::AnyMeanUp,
        _ => section_rule(code, f),
    }
}
