// The judgement for the dispatchers' host program: one exported function on the bytes of both files, which returns numbers.
#![tactic(auto)]

ghost use Rattle.std.specs.Prelude.{◌≡◌};
ghost use Rattle.session.specs.Calls.{judge_files};
ghost use Rattle.judgement.specs.Numbers.{numbers_of};

use judgement::{Numbers, judge_numbers};

// Judges the bridge of a survey file for the vehicle of a vehicle file. Any bytes of any length get their answer.
#[unsafe(no_mangle)]
pub extern "C" fn tbr_judge(survey: &[u8], vehicle: &[u8]) -> Numbers
    ensures { result ≡ numbers_of (judge_files survey.now vehicle.now).answer }
{
    judge_numbers(survey, vehicle)
}
