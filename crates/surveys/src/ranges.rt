// The tables of documents 01 and 02: which section suits a kind, which fields a record uses, and the ranges of those.
ghost use Rattle.std.specs.Prelude.{◌≡◌, ◌<◌, eqb};
ghost use Rattle.section.specs.Choose.{choose};
ghost use Rattle.member.specs.Fields.{FIELDS};
ghost use Rattle.member.specs.Format.{◌‥◌, holds, unused_by_kind, unused_by_code, used, distance_range, for_kind7, section_range, range_of, suits};

use files::limits::Limits;
use member::record::{
    CLOSE_STRINGER, CODE, DEAD_LOAD, DISTANCE, FIELDS, HEIGHT, KIND, MU_A, MU_B, S1, S3, S4, S5,
    S6, SPACING, SPAN, SPECIES,
};

// Stays: kinds and codes are numbers in this file and in fault.rt, since `suits`, `used` and `range_of` are over numbers: with enums six contracts
// would turn them back.

// "kinds 1 and 2 .. and code 5"; kind 7 has logs and sawn beams.
#[tactic(auto, unfolding(member::specs::Format::suits))]
pub fn suits_kind(kind: u16, code: u16) -> bool
    ensures { result ≡ suits kind code }
{
    match kind {
        0..=2 => matches!(code, 1 | 2 | 5),
        3 => code == 2,
        4 => code == 3,
        CLOSE_STRINGER => matches!(code, 1 | 2),
        _ => code == 4,
    }
}

// "kind 1 x, h, A, B; kind 2 d, h, A, B; kind 3 A, B; kind 6 species"
#[tactic(auto, unfolding(member::specs::Format::unused_by_kind))]
fn unused_by_kind(kind: u16, field: usize) -> bool
    ensures { result ≡ holds field (unused_by_kind kind) }
{
    match kind {
        1 => matches!(field, DISTANCE | HEIGHT | MU_A | MU_B),
        2 => matches!(field, SPACING | HEIGHT | MU_A | MU_B),
        3 => matches!(field, MU_A | MU_B),
        6 => field == SPECIES,
        _ => false,
    }
}

// "the section fields that a code lacks", and in bending, kind 7 included, the lost area of a sawn section.
#[tactic(auto, unfolding(member::specs::Format::unused_by_code, member::specs::Format::bending))]
fn unused_by_code(kind: u16, code: u16, field: usize) -> bool
    ensures { result ≡ holds field (unused_by_code kind code) }
{
    match code {
        1 | 5 => matches!(field, S4 | S5 | S6),
        2 => matches!(kind, 0..=2 | CLOSE_STRINGER) && field == S6,
        4 => matches!(field, S3 | S4 | S5 | S6),
        _ => false,
    }
}

#[tactic(auto, unfolding(member::specs::Format::used))]
pub fn is_used(kind: u16, code: u16, field: usize) -> bool
    ensures { result ≡ used kind code field }
{
    !unused_by_kind(kind, field) && !unused_by_code(kind, code, field)
}

fn limits(low: u32, high: u32) -> Limits
    ensures { (result.low ≡ low) × (result.high ≡ high) }
{
    Limits { low, high }
}

// The range of kind 7, or that of the other kinds.
fn for_close(kind: u16, own: Limits, others: Limits) -> Limits
    ensures { result ≡ choose (eqb kind 7) own others }
{
    if kind == CLOSE_STRINGER { own } else { others }
}

// The ranges in the order of the record. Kind 7 has some of its own: its spacing, and those of its deck.
#[tactic(auto, unfolding(member::specs::Format::range_of, member::specs::Format::ranges))]
pub fn limits_of(kind: u16, code: u16, span: u16, field: usize) -> Limits
    requires { field < FIELDS }
    ensures { (result.low ≡ (range_of kind code span field).low) × (result.high ≡ (range_of kind code span field).high) }
{
    match field {
        KIND => limits(1, 7),
        SPECIES => limits(1, 8),
        SPAN => limits(100, 5000),
        SPACING => for_close(kind, limits(30, 100), limits(10, 1000)),
        DISTANCE => for_close(kind, limits(1, 10), distance_limits(kind, span)),
        HEIGHT => for_close(kind, limits(1, 20), limits(10, 500)),
        DEAD_LOAD => limits(0, 10000),
        CODE => limits(1, 5),
        MU_A => for_close(kind, limits(1, 60), limits(1, 1000)),
        MU_B => for_close(kind, limits(0, 20), limits(1, 1000)),
        _ => section_limits(code, field - S1),
    }
}

// The ranges of s1 to s6, from 0; nothing but 0 for what a code lacks, and under any other code.
#[tactic(auto, unfolding(member::specs::Format::section_range, member::specs::Format::section_ranges))]
fn section_limits(code: u16, s: usize) -> Limits
    requires { s < 6 }
    ensures { (result.low ≡ (section_range code s).low) × (result.high ≡ (section_range code s).high) }
{
    match (code, s) {
        (1, 0) => limits(13, 39), // log, diameter
        (1, 1) => limits(0, 60), // rot
        (1, 2) => limits(1, 3), // tiers
        (2, 0) => limits(1, 60), // sawn, width
        (2, 1) => limits(1, 60), // height
        (2, 2) => limits(0, 60), // side rot
        (2, 3) => limits(0, 60), // top rot
        (2, 4) => limits(1, 40), // pieces
        (2, 5) => limits(0, 10000), // lost area
        (3, 0) => limits(1, 3), // dowels, type
        (3, 1) => limits(1, 60), // diameter
        (3, 2) => limits(1, 60), // middle thickness
        (3, 3) => limits(1, 60), // outer thickness
        (3, 4) => limits(0, 60), // rot
        (3, 5) => limits(1, 200), // cuts
        (4, 0) => limits(1, 10000), // area, area
        (4, 1) => limits(0, 10000), // lost area
        (5, 0) => limits(14, 36), // crescent, diameter
        (5, 1) => limits(0, 60), // depth
        (5, 2) => limits(1, 3), // tiers
        _ => limits(0, 0),
    }
}

// "x 1..l−1 (kind 2: 10..1000)"
fn distance_limits(kind: u16, span: u16) -> Limits
    ensures { (result.low ≡ (distance_range kind span).low) × (result.high ≡ (distance_range kind span).high) }
{
    if kind == 2 {
        limits(10, 1000)
    } else {
        limits(1, u32::from(span.saturating_sub(1)))
    }
}
