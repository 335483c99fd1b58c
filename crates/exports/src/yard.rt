// The whole yard for the host program: one exported function on the bytes of a survey and a yard, and a lent list.
ghost use Rattle.std.specs.Prelude.{◌≡◌, ◌*◌, ◌≤◌, ◌++◌, length, take, drop};
ghost use Rattle.vehicles.specs.YardFile.{MOST_VEHICLES};
ghost use Rattle.session.specs.Answers.{yard_answer};
ghost use Rattle.session.specs.Yard.{entries};
ghost use Rattle.exports.specs.YardNumbers.{yard_numbers_of, numbers_in, yard_numbers, yard_number_list};

use files::Refusal;
use rating::judging::Judgement;
use session::yard::yard_answers;
use session::{Session, verdict_number};
use vehicles::yard::MOST_VEHICLES;

// Number and place of a refusal, both 0 where there is none; then the number of vehicles, whose answers the list has, and of those that
// pass, both 0 where anything is refused. The host's declaration has the same fields in the same order.
// Stays: numbers, as the C interface has them.
#[repr(C)]
#[derive(Clone, Copy)]
pub struct YardNumbers {
    pub refusal: u64,
    pub place: u64,
    pub vehicles: u64,
    pub passes: u64,
}

fn numbers_of(answer: Result<u64, Refusal>, count: u64) -> YardNumbers
    ensures { result ≡ yard_numbers_of (yard_answer answer) count }
{
    match answer {
        Ok(passes) => YardNumbers {
            refusal: 0,
            place: 0,
            vehicles: count,
            passes,
        },
        Err(refusal) => YardNumbers {
            refusal: refusal.number,
            place: refusal.place,
            vehicles: 0,
            passes: 0,
        },
    }
}

// Writes the answers into the list, three numbers each, without the margin; entries beyond are kept.
fn put_numbers(list: &mut [u64], answers: &[Judgement])
    requires { (length answers.now ≤ MOST_VEHICLES) × (3 * length answers.now ≤ length list.old) }
    ensures { list.new ≡ numbers_in (entries answers.now) ++ drop (3 * length answers.now) list.old }
{
    for (i, j) in answers.iter().enumerate() {
        let at = 3 * i;
        list[at] = j.figure.0;
        list[at + 1] = j.governing;
        list[at + 2] = verdict_number(j.verdict);
    }
}

// Judges the bridge of a survey file for every vehicle of a yard, and fills the list with figure, governing place and verdict (1 pass, 0
// refuse) of each. Any bytes of any length get their answer; where anything is refused, the list is as it was.
#[unsafe(no_mangle)]
pub extern "C" fn tbr_yard(survey: &[u8], yard: &[u8], list: &mut [u64]) -> YardNumbers
    ensures is { result ≡ yard_numbers survey.now yard.now list.old }
    ensures list { list.new ≡ yard_number_list survey.now yard.now list.old }
{
    let loaded = Session::new().load_survey(survey);
    if let Err(refusal) = loaded.answer {
        return numbers_of(Err(refusal), 0);
    }
    match yard_answers(&loaded.session, yard, list.len() / 3) {
        Ok(found) => {
            put_numbers(list, &found.answers[..found.count]);
            numbers_of(Ok(found.passes), found.count as u64)
        }
        Err(refusal) => numbers_of(Err(refusal), 0),
    }
}
