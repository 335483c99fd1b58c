// Two measurers: two survey files of one bridge are joined, field by field, into one of version 1.
#![tactic(auto)]

mod bytes;
mod record;
mod rule;

ghost use Rattle.std.specs.Prelude.{◌≡◌, ◌≤◌, length};
ghost use Rattle.surveys.specs.Allowed.{AllowedSurveyFile};
ghost use Rattle.files.specs.Writing.{written_answer, onto};
ghost use Rattle.join.specs.Fault.{output_length};
ghost use Rattle.join.specs.Join.{pair_answer, output, joined, joined_out};

use bytes::{put_head, put_record};
use files::Refusal;
use files::fault::Fault;
use record::{join_fault, joined_member};
use surveys::file::{HEADER, RECORD, count_of, read_survey, record_at};

// 18 at place 0 for another count, else the first record at fault.
fn pair_answer(first: &[u8], second: &[u8]) -> Result<(), Refusal>
    requires { AllowedSurveyFile first.now × AllowedSurveyFile second.now }
    ensures { result ≡ pair_answer first.now second.now }
{
    let count = count_of(first);
    if count != count_of(second) {
        return Err(Fault::Disagreement.at(0));
    }
    for i in 0..count {
        if let Err(fault) = join_fault(record_at(first, i), record_at(second, i)) {
            return Err(fault.at(i as u64 + 1));
        }
    }
    Ok(())
}

// The joined survey into the output, and how many bytes it has.
fn put_joined(out: &mut [u8], first: &[u8], second: &[u8]) -> u64
    requires { (output_length first.now ≤ length first.now) × (output_length first.now ≤ length second.now) × (output_length first.now ≤ length out.old) }
    ensures length { result ≡ length (output first.now second.now) }
    ensures out { out.new ≡ onto (output first.now second.now) out.old }
{
    let count = count_of(first);
    put_head(out, count);
    for i in 0..count {
        let joined = joined_member(record_at(first, i), record_at(second, i));
        put_record(out, HEADER + RECORD * i, joined);
    }
    (HEADER + RECORD * count) as u64
}

// Two survey files of any length into the output, joined. All tests come before a byte is written.
pub fn join(first: &[u8], second: &[u8], out: &mut [u8]) -> Result<u64, Refusal>
    ensures is { written_answer result ≡ joined first.now second.now (length out.old) }
    ensures out { out.new ≡ joined_out first.now second.now out.old }
{
    read_survey(first)?;
    read_survey(second)?;
    pair_answer(first, second)?;
    let length = HEADER + RECORD * count_of(first);
    Fault::NoRoom.unless(length <= out.len())?;
    Ok(put_joined(out, first, second))
}
