// Reading a survey file: the header's tests, then the first fault in record order, then from version 2 on the order of the records. Where
// nothing is at fault the records are taken.
ghost use Rattle.std.specs.Prelude.{◌≡◌, ◌++◌, ◌+◌, ◌-◌, ◌*◌, ◌≤◌, ◌<◌, length, replicate};
ghost use Rattle.files.specs.Words.{each};
ghost use Rattle.files.specs.Reading.{first_fault, taken};
ghost use Rattle.member.specs.Blank.{blank_member};
ghost use Rattle.member.specs.Fields.{MOST_MEMBERS};
ghost use Rattle.surveys.specs.SurveyFile.{SURVEY_HEADER, RECORD, count_of, record_at, record_faults, read_survey};

use crate::fault::{code_fault, is_ordered, is_within, is_zeroed};
use crate::sequence::sequence_answer;
use files::Refusal;
use files::fault::Fault;
use files::header::header_fault;
use files::limits::Limits;
use files::words::words;
use member::blank::blank_member;
use member::record::{FIELDS, MOST_MEMBERS, Member, Survey};

// The versions of a survey.
const VERSIONS: Limits = Limits { low: 1, high: 2 };

// The letters, the version and the count.
pub const HEADER: usize = 6;

// Sixteen words.
pub const RECORD: usize = 32;

// The count of records, the last byte of the header.
pub fn count_of(bytes: &[u8]) -> usize
    requires { SURVEY_HEADER ≤ length bytes.now }
    ensures { (result ≡ count_of bytes.now) × (result < 256) }
{
    usize::from(bytes[HEADER - 1])
}

// The record of an index, from 0.
pub fn record_at(bytes: &[u8], i: usize) -> Member
    requires { SURVEY_HEADER + RECORD * (i + 1) ≤ length bytes.now }
    ensures { result ≡ record_at bytes.now i }
{
    Member {
        fields: words(bytes, HEADER + RECORD * i),
    }
}

// The first fault in record order, with its place. A number outside its range waits until every field was seen to be 0
// where it is unused: Unused goes before Range.
fn first_fault(bytes: &[u8], count: usize) -> Result<(), Refusal>
    requires { SURVEY_HEADER + RECORD * count ≤ length bytes.now }
    ensures { result ≡ first_fault 1 (record_faults bytes.now count) }
{
    // Stays: an answer beside the loops, which are left by their label: document 01's named form of `first_fault`.
    let mut answer = Ok(());
    'records: for i in 0..count {
        let m = record_at(bytes, i);
        let place = i as u64 + 1;
        if let Err(fault) = code_fault(m) {
            answer = Err(fault.at(place));
            break 'records;
        }
        let mut good = is_ordered(m);
        for f in 0..FIELDS {
            if !is_zeroed(m, f) {
                answer = Err(Fault::Unused.at(place));
                break 'records;
            }
            good = good & is_within(m, f);
        }
        if !good {
            answer = Err(Fault::Range.at(place));
            break 'records;
        }
    }
    answer
}

// The records, and blank ones after them.
fn members_of(bytes: &[u8], count: usize) -> [Member; MOST_MEMBERS]
    requires { (count ≤ MOST_MEMBERS) × (SURVEY_HEADER + RECORD * count ≤ length bytes.now) }
    ensures { result ≡ each (record_at bytes.now) count ++ replicate (MOST_MEMBERS - count) blank_member }
{
    let mut members = [blank_member(); MOST_MEMBERS];
    for i in 0..count {
        members[i] = record_at(bytes, i);
    }
    members
}

// A survey file of any length: the survey, or the first fault.
// Compiled into its callers: the survey is large, and goes from call to call by value.
#[inline(always)]
pub fn read_survey(bytes: &[u8]) -> Result<Survey, Refusal>
    ensures { result ≡ taken (read_survey bytes.now).answer (read_survey bytes.now).survey }
{
    header_fault(bytes, b'R', VERSIONS, HEADER, MOST_MEMBERS as u32, RECORD)?;
    let count = count_of(bytes);
    first_fault(bytes, count)?;
    sequence_answer(bytes, count)?;
    Ok(Survey {
        count,
        members: members_of(bytes, count),
    })
}
