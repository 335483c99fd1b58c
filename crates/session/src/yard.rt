// The whole yard in one go: each vehicle is judged alone, and the answers are written once none is refused.
ghost use Rattle.std.specs.Prelude.{◌≡◌, ◌+◌, ◌≤◌, ◌<◌, length, MatchResult};
ghost use Rattle.files.specs.Fault.{fault_of};
ghost use Rattle.files.specs.Reading.{first_of};
ghost use Rattle.rating.specs.Surveyed.{AllowedSurvey};
ghost use Rattle.vehicles.specs.YardFile.{MOST_VEHICLES, vehicles_of};
ghost use Rattle.session.specs.Answers.{yard_answer, yard_judged};
ghost use Rattle.session.specs.Yard.{front_tests, end_tests, entries, judge_yard, yard_list};
ghost use Rattle.session.specs.YardRun.{Going, Ran, Answered, with_answer};

use crate::{After, Session, judge_vehicle, verdict_number};
use files::Refusal;
use files::fault::Fault;
use listing::put_all;
use rating::judging::{Judgement, Verdict};
use section::KgfPerM;
use vehicles::yard::{MOST_VEHICLES, vehicle_length};

// The answers of a yard in which none is refused: how many vehicles pass, and the first `count` answers.
// Stays: an array and a count, here and in `Run`, as fixed memory without a heap needs.
#[derive(Clone, Copy)]
pub struct YardAnswers {
    pub passes: u64,
    pub count: usize,
    pub answers: [Judgement; MOST_VEHICLES],
}

// The vehicles so far, of which none is refused: where the next file starts, how many pass, and their answers.
#[derive(Clone, Copy)]
struct Run {
    at: usize,
    passes: u64,
    answers: [Judgement; MOST_VEHICLES],
}

// No vehicle yet: the first file stands behind the count.
fn no_vehicle() -> Run
    ensures { (result.at ≡ 1) × (result.passes ≡ 0) × (length result.answers ≡ MOST_VEHICLES) }
{
    let blank = Judgement {
        figure: KgfPerM(0),
        governing: 0,
        verdict: Verdict::Refuse,
        margin: 0,
    };
    Run {
        at: 1,
        passes: 0,
        answers: [blank; MOST_VEHICLES],
    }
}

// The answer of one vehicle more, whose file ends there.
fn with_answer(run: Run, j: Judgement, i: usize, end: usize) -> Run
    requires { (i < MOST_VEHICLES) × (length run.answers ≡ MOST_VEHICLES) × (run.passes ≤ i) }
    ensures { result ≡ with_answer run j i end }
{
    let mut answers = run.answers;
    answers[i] = j;
    Run {
        at: end,
        passes: run.passes + verdict_number(j.verdict),
        answers,
    }
}

// One vehicle more. Of the session only the survey goes on, and once: it is large.
fn with_vehicle(run: Run, session: &Session, yard: &[u8], i: usize) -> Result<Run, Refusal>
    requires { AllowedSurvey session.now.survey × (i < MOST_VEHICLES) × Going session.now yard.now i run }
    ensures { Ran session.now yard.now (i + 1) result }
{
    let end = run.at + vehicle_length(&yard[run.at..]);
    let j = judge_vehicle(session.survey, &yard[run.at..end])?;
    Ok(with_answer(run, j, i, end))
}

// Every vehicle in turn, as far as the first that is refused.
fn judge_each(session: &Session, yard: &[u8], count: usize) -> Result<Run, Refusal>
    requires { AllowedSurvey session.now.survey × (1 ≤ length yard.now) × (count ≤ MOST_VEHICLES) }
    ensures { Ran session.now yard.now count result }
{
    let mut run = no_vehicle();
    for i in 0..count {
        run = with_vehicle(run, session, yard, i)?;
    }
    Ok(run)
}

// No survey, no count byte, a count outside its range.
fn front_fault(members: usize, yard: &[u8]) -> Result<(), Fault>
    ensures { fault_of result ≡ first_of (front_tests members yard.now) }
{
    if members == 0 {
        return Err(Fault::NoSurvey);
    }
    if yard.is_empty() {
        return Err(Fault::Length);
    }
    let count = usize::from(yard[0]);
    if count < 1 || MOST_VEHICLES < count {
        return Err(Fault::Count);
    }
    Ok(())
}

// Bytes left over, a list shorter than the count.
fn end_fault(left: usize, count: usize, room: usize) -> Result<(), Fault>
    ensures { fault_of result ≡ first_of (end_tests left count room) }
{
    if left != 0 {
        return Err(Fault::Length);
    }
    if room < count {
        return Err(Fault::NoRoom);
    }
    Ok(())
}

// The answers of a yard's vehicles for a list with so much room, all tests made.
pub fn yard_answers(session: &Session, yard: &[u8], room: usize) -> Result<YardAnswers, Refusal>
    ensures { Answered session.now yard.now room result }
{
    front_fault(session.survey.count, yard)?;
    let count = usize::from(yard[0]);
    let run = judge_each(session, yard, count)?;
    end_fault(yard.len() - run.at, count, room)?;
    let answers = run.answers;
    Ok(YardAnswers {
        passes: run.passes,
        count,
        answers,
    })
}

// The answers into the list, once none is refused, and how many vehicles pass.
fn judge_into(session: &Session, yard: &[u8], list: &mut [Judgement]) -> Result<u64, Refusal>
    ensures is { yard_answer result ≡ (judge_yard session.now yard.now (entries list.old)).answer }
    ensures list { entries list.new ≡ yard_list session.now yard.now (entries list.old) }
{
    let found = yard_answers(session, yard, list.len())?;
    put_all(list, &found.answers[..found.count]);
    Ok(found.passes)
}

impl Session {
    // Judge every vehicle of a yard, and fill the list with an answer a vehicle. The session, the loaded vehicle too, stays.
    pub fn judge_yard(self, yard: &[u8], list: &mut [Judgement]) -> After<u64>
        ensures is { yard_judged result ≡ judge_yard self yard.now (entries list.old) }
        ensures list { entries list.new ≡ yard_list self yard.now (entries list.old) }
    {
        let answer = judge_into(&self, yard, list);
        After {
            session: self,
            answer,
        }
    }
}
