// Rot between two readings: two surveys of one bridge, the second as worn or more. Of every member the lowest and the highest permitted load,
// and whether the vehicle passes for all surveys between the two.
#![tactic(auto)]

ghost use Rattle.std.specs.Prelude.{◌≡◌, ◌<◌, length};
ghost use Rattle.member.specs.Format.{AllowedVehicle};
ghost use Rattle.between.specs.Between.{answered_between, between_list};

pub mod bounds;
pub mod order;

use bounds::fill;
use files::Refusal;
use files::fault::Fault;
use member::record::Vehicle;
use order::order_answer;
use surveys::file::read_survey;

// The vehicle passes for all surveys between the two, for none, or the two ends differ.
#[derive(Clone, Copy)]
pub enum Between {
    All,
    None,
    Undecided,
}

// The bounds of two survey files for a vehicle, into the list, and the verdict. A vehicle with no axles is not loaded.
pub fn judge_between(
    v: Vehicle,
    first: &[u8],
    second: &[u8],
    list: &mut [u64],
) -> Result<Between, Refusal>
    requires { 0 < v.axles → AllowedVehicle v }
    ensures is { result ≡ answered_between v first.now second.now (length list.old) }
    ensures list { list.new ≡ between_list v first.now second.now list.old }
{
    // Stays: no Option of a vehicle, since the contract says by the axles what is loaded.
    Fault::NoVehicle.unless(v.axles != 0)?;
    let first_survey = read_survey(first)?;
    let second_survey = read_survey(second)?;
    order_answer(first_survey, second_survey)?;
    Fault::NoRoom.unless(2 * first_survey.count <= list.len())?;
    Ok(fill(first_survey, second_survey, v, list))
}
