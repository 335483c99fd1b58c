// The members' loads for the host program: one exported function on the bytes of both files and a lent list. `yard` has the same for a
// whole yard.
#![tactic(auto)]

pub mod yard;

ghost use Rattle.std.specs.Prelude.{◌≡◌};
ghost use Rattle.session.specs.Answers.{judge_answer};
ghost use Rattle.exports.specs.Loads.{loads_of, member_loads, member_list};

use files::Refusal;
use judgement::{Numbers, numbers_of};
use rating::judging::Judgement;
use session::load_files;
use surveys::file::count_of;

// The numbers of the judgement, then the number of members, whose loads the list has; 0 members where anything is refused. The
// host's declaration has the same fields in the same order.
// Stays: numbers, as the C interface has them.
#[repr(C)]
#[derive(Clone, Copy)]
pub struct Loads {
    pub judged: Numbers,
    pub members: u64,
}

fn loads_of(answer: Result<Judgement, Refusal>, count: u64) -> Loads
    ensures { result ≡ loads_of (judge_answer answer) count }
{
    Loads {
        judged: numbers_of(answer),
        members: if answer.is_ok() { count } else { 0 },
    }
}

// Judges the bridge of a survey file for the vehicle of a vehicle file, and fills the list with permitted load and vehicle load of
// each member. Any bytes of any length get their answer; where anything is refused, the list is as it was.
#[unsafe(no_mangle)]
pub extern "C" fn tbr_member_loads(survey: &[u8], vehicle: &[u8], list: &mut [u64]) -> Loads
    ensures is { result ≡ member_loads survey.now vehicle.now list.old }
    ensures list { list.new ≡ member_list survey.now vehicle.now list.old }
{
    let both = load_files(survey, vehicle);
    match both.answer {
        Ok(()) => loads_of(both.session.judge(list).answer, count_of(survey) as u64),
        Err(refusal) => loads_of(Err(refusal), 0),
    }
}
