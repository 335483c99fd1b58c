// The judgement for the dispatchers' host program: one function on the bytes of both files, which returns numbers. `judgement_c` exports
// it.
#![tactic(auto)]

ghost use Rattle.std.specs.Prelude.{◌≡◌};
ghost use Rattle.session.specs.Answers.{judge_answer};
ghost use Rattle.session.specs.Calls.{judge_files};
ghost use Rattle.judgement.specs.Numbers.{numbers_of};

use files::Refusal;
use rating::judging::Judgement;
use session::{judge_files, verdict_number};

// Number and place of a refusal, both 0 where there is none; then figure, governing place and verdict (1 pass, 0 refuse), all 0
// where a file is refused. The host's declaration has the same fields in the same order.
// Stays: numbers, as the C interface has them.
#[repr(C)]
#[derive(Clone, Copy)]
pub struct Numbers {
    pub refusal: u64,
    pub place: u64,
    pub figure: u64,
    pub governing: u64,
    pub passes: u64,
}

pub fn numbers_of(answer: Result<Judgement, Refusal>) -> Numbers
    ensures { result ≡ numbers_of (judge_answer answer) }
{
    match answer {
        Ok(j) => Numbers {
            refusal: 0,
            place: 0,
            figure: j.figure.0,
            governing: j.governing,
            passes: verdict_number(j.verdict),
        },
        Err(refusal) => Numbers {
            refusal: refusal.number,
            place: refusal.place,
            figure: 0,
            governing: 0,
            passes: 0,
        },
    }
}

// Judges the bridge of a survey file for the vehicle of a vehicle file. Any bytes of any length get their answer.
pub fn judge_numbers(survey: &[u8], vehicle: &[u8]) -> Numbers
    ensures { result ≡ numbers_of (judge_files survey.now vehicle.now).answer }
{
    numbers_of(judge_files(survey, vehicle))
}
