// The order of a survey's records: from version 2 they stand by kind, then span, then spacing.
ghost use Rattle.std.specs.Prelude.{◌≡◌, ◌+◌, ◌-◌, ◌*◌, ◌≤◌, ◌<◌, length};
ghost use Rattle.member.specs.Fields.{FIELDS, KIND, SPAN, SPACING, field};
ghost use Rattle.surveys.specs.Sequence.{sequence_fields, before};
ghost use Rattle.surveys.specs.SurveyFile.{SURVEY_HEADER, RECORD, record_at, sequence_answer};

use crate::file::{HEADER, RECORD};
use files::Refusal;
use files::fault::Fault;
use files::words::word_at;
use member::record::{KIND, SPACING, SPAN};

// The version from which the records stand in order.
// Stays: a number, since `sequence_answer` answers for any version.
const SEQUENCE_FROM: u16 = 2;

// The number in a field of a record.
fn field_at(bytes: &[u8], i: usize, f: usize) -> u16
    requires { (f < FIELDS) × (SURVEY_HEADER + RECORD * (i + 1) ≤ length bytes.now) }
    ensures { result ≡ field (record_at bytes.now i) f }
{
    word_at(bytes, HEADER + RECORD * i + 2 * f)
}

// The numbers by which the records stand.
fn sequence_of(bytes: &[u8], i: usize) -> (u16, u16, u16)
    requires { SURVEY_HEADER + RECORD * (i + 1) ≤ length bytes.now }
    ensures { (result.0 ≡ field (record_at bytes.now i) KIND) × (result.1 ≡ field (record_at bytes.now i) SPAN) × (result.2 ≡ field (record_at bytes.now i) SPACING) }
{
    (
        field_at(bytes, i, KIND),
        field_at(bytes, i, SPAN),
        field_at(bytes, i, SPACING),
    )
}

// The record of index i stands before the one of index i - 1: the first of kind, span and spacing in which the two differ is less.
#[tactic(auto, using(crate::proofs::Sequences::tuple_before))]
fn is_before(bytes: &[u8], i: usize) -> bool
    requires { (1 ≤ i) × (SURVEY_HEADER + RECORD * (i + 1) ≤ length bytes.now) }
    ensures { result ≡ before sequence_fields (record_at bytes.now i) (record_at bytes.now (i - 1)) }
{
    sequence_of(bytes, i) < sequence_of(bytes, i - 1)
}

// The first record that stands before its predecessor. Version 1 keeps free order.
pub fn sequence_answer(bytes: &[u8], count: usize) -> Result<(), Refusal>
    requires { (1 ≤ count) × (SURVEY_HEADER + RECORD * count ≤ length bytes.now) }
    ensures { result ≡ sequence_answer bytes.now count }
{
    if word_at(bytes, 3) < SEQUENCE_FROM {
        return Ok(());
    }
    // Stays: a loop of its own, as the like in between, convert and join: a function that took the test would be no shorter than its call.
    for i in 1..count {
        if is_before(bytes, i) {
            return Err(Fault::Sequence.at(i as u64 + 1));
        }
    }
    Ok(())
}
