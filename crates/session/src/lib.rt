// The session: the survey and the vehicle that are loaded, and the calls; `yard` has the one that judges a yard of vehicles, `readings` the
// one on two surveys between which rot was read, `gauging` the one on the readings of a gauge, `coupling` the one that couples two vehicles. A session
// goes in by value and comes back beside the answer.
#![tactic(auto)]

ghost use Rattle.std.specs.Prelude.{◌≡◌, ◌≤◌, IfOk};
ghost use Rattle.session.specs.Answers.{verdict_number, loaded, rated, judged, rate_answer, judge_answer};
ghost use Rattle.files.specs.Fault.{fault_of};
ghost use Rattle.files.specs.Reading.{Reading, taken};
ghost use Rattle.member.specs.Fields.{MOST_MEMBERS};
ghost use Rattle.member.specs.Format.{AllowedVehicle};
ghost use Rattle.member.specs.declared.record.Vehicle.{Vehicle};
ghost use Rattle.session.specs.Calls.{new_session, load_survey, stored_vehicle, load_vehicle, state_fault, rate_fault, judge_fault, rate, judge, judge_list, load_files, judge_files};
ghost use Rattle.session.specs.Place.{MemberFound};
ghost use Rattle.session.specs.Yard.{alone};
ghost use Rattle.rating.specs.Surveyed.{AllowedSurvey};
ghost use Rattle.vehicles.specs.VehicleFile.{blank_vehicle};

pub mod coupling;
pub mod gauging;
pub mod readings;
pub mod yard;

use files::Refusal;
use files::fault::Fault;
use member::blank::blank_survey;
use member::record::{MOST_MEMBERS, Member, Survey, Vehicle};
use rating::judging;
use rating::judging::{Judgement, Rating, Verdict};
use std::marker::Model;
use surveys::file::read_survey;
use vehicles::file::{blank_vehicle, read_vehicle};

// A survey with count 0, or a vehicle with no axles, is not loaded.
// Stays: no Option of either, since `new_session` and `state_fault`, under the theorems of demands, say by the counts what is loaded.
#[derive(Clone, Copy)]
pub struct Session {
    survey: Survey,
    vehicle: Vehicle,
}

// What is loaded is as its file's format allows: of every session this holds, and no call has to ask for it.
impl Model for Session {
    ghost use Rattle.session.specs.Loaded.{Session as Loaded, Valid};

    ghost Value = { Loaded };

    ghost view = { λ s. record { survey = s.survey; vehicle = s.vehicle } };

    ghost invariant = { λ s. Valid (record { survey = s.survey; vehicle = s.vehicle }) };

    ghost inverse = { λ s. record { survey = s.survey; vehicle = s.vehicle } };
}

// What a call hands back: the session, and its answer or a refusal.
#[derive(Clone, Copy)]
pub struct After<T> {
    pub session: Session,
    pub answer: Result<T, Refusal>,
}

impl Session {
    // A session with nothing loaded.
    pub fn new() -> Self
        ensures { result ≡ new_session }
    {
        Self {
            survey: blank_survey(),
            vehicle: blank_vehicle(),
        }
    }

    // Load a survey: a file that is taken replaces the survey and nothing else; a refused one replaces nothing.
    pub fn load_survey(self, bytes: &[u8]) -> After<()>
        ensures { loaded result ≡ load_survey self bytes.now }
    {
        match read_survey(bytes) {
            Ok(survey) => After {
                session: Session { survey, ..self },
                answer: Ok(()),
            },
            Err(refusal) => After {
                session: self,
                answer: Err(refusal),
            },
        }
    }

    // Load a vehicle, in the same way.
    // Stays: two stores, since one for both would take a closure for a field, and a survey is moved once.
    pub fn load_vehicle(self, bytes: &[u8]) -> After<()>
        ensures { loaded result ≡ load_vehicle self bytes.now }
    {
        store_vehicle(self, read_vehicle(bytes))
    }

    // Rate the member at a place.
    pub fn rate(self, place: u64) -> After<Rating>
        ensures { rated result ≡ rate self place }
    {
        After {
            session: self,
            answer: rate_loaded(&self, place),
        }
    }

    // Judge the bridge, and fill the list with permitted load and vehicle load of each member.
    pub fn judge(self, list: &mut [u64]) -> After<Judgement>
        ensures is { judged result ≡ judge self list.old }
        ensures list { list.new ≡ judge_list self list.old }
    {
        let answer = judge_loaded(&self, list);
        After {
            session: self,
            answer,
        }
    }
}

// The session with a vehicle that was read, of one file or of two: one that is taken replaces the vehicle and nothing else.
fn store_vehicle(session: Session, read: Result<Vehicle, Refusal>) -> After<()>
    requires { IfOk read AllowedVehicle }
    ensures { (answer : Reading) → (vehicle : Vehicle) → read ≡ taken answer vehicle → loaded result ≡ stored_vehicle session answer vehicle }
{
    match read {
        Ok(vehicle) => After {
            session: Session { vehicle, ..session },
            answer: Ok(()),
        },
        Err(refusal) => After {
            session,
            answer: Err(refusal),
        },
    }
}

// No survey, no vehicle.
#[tactic(auto, unfolding(crate::specs::Calls::state_fault))]
fn state_fault(members: usize, axles: usize) -> Result<(), Fault>
    ensures { fault_of result ≡ state_fault members axles }
{
    if members == 0 {
        return Err(Fault::NoSurvey);
    }
    if axles == 0 {
        return Err(Fault::NoVehicle);
    }
    Ok(())
}

// No survey, no vehicle, no such place.
#[tactic(auto, unfolding(crate::specs::Calls::rate_fault))]
fn rate_fault(members: usize, axles: usize, place: u64) -> Result<(), Fault>
    ensures { fault_of result ≡ rate_fault members axles place }
{
    state_fault(members, axles)?;
    if place < 1 || (members as u64) < place {
        return Err(Fault::NoPlace);
    }
    Ok(())
}

// No survey, no vehicle, a list shorter than two entries a member. So few members that twice their number does not overflow.
#[tactic(auto, unfolding(crate::specs::Calls::judge_fault))]
fn judge_fault(members: usize, axles: usize, entries: usize) -> Result<(), Fault>
    requires { members ≤ MOST_MEMBERS }
    ensures { fault_of result ≡ judge_fault members axles entries }
{
    state_fault(members, axles)?;
    if entries < 2 * members {
        return Err(Fault::NoRoom);
    }
    Ok(())
}

// The member at a place, where both files are loaded and the survey has such a place.
fn member_at(session: &Session, place: u64) -> Result<Member, Refusal>
    ensures { MemberFound session.now place result }
{
    rate_fault(session.survey.count, session.vehicle.axles, place)?;
    Ok(session.survey.members[(place - 1) as usize])
}

fn rate_loaded(session: &Session, place: u64) -> Result<Rating, Refusal>
    ensures { rate_answer result ≡ (rate session.now place).answer }
{
    let m = member_at(session, place)?;
    Ok(judging::rate(m, session.vehicle))
}

fn judge_loaded(session: &Session, list: &mut [u64]) -> Result<Judgement, Refusal>
    ensures is { judge_answer result ≡ (judge session.now list.old).answer }
    ensures list { list.new ≡ judge_list session.now list.old }
{
    judge_fault(session.survey.count, session.vehicle.axles, list.len())?;
    Ok(judging::judge(session.survey, session.vehicle, list))
}

// Loads a survey file and a vehicle file into a new session: the refusal of the first that is refused, or both taken. The survey goes into it where
// it is read, with no blank one to be replaced.
pub fn load_files(survey: &[u8], vehicle: &[u8]) -> After<()>
    ensures { loaded result ≡ load_files survey.now vehicle.now }
{
    match read_survey(survey) {
        Ok(taken) => {
            let session = Session {
                survey: taken,
                vehicle: blank_vehicle(),
            };
            session.load_vehicle(vehicle)
        }
        Err(refusal) => After {
            session: Session::new(),
            answer: Err(refusal),
        },
    }
}

// 1 for pass, 0 for refuse.
// Stays: a public function and no `From`, since these are the numbers of the C interface, and `Verdict` is of another crate.
pub fn verdict_number(v: Verdict) -> u64
    ensures { result ≡ verdict_number v }
{
    match v {
        Verdict::Pass => 1,
        Verdict::Refuse => 0,
    }
}

// The judgement of a survey for the vehicle of a file, or the vehicle's refusal. Only the judgement is wanted, so the list is one that is long
// enough for any survey.
fn judge_vehicle(survey: Survey, vehicle: &[u8]) -> Result<Judgement, Refusal>
    requires { AllowedSurvey survey }
    ensures { judge_answer result ≡ alone (record { survey = survey; vehicle = blank_vehicle }) vehicle.now }
{
    let vehicle = read_vehicle(vehicle)?;
    let mut list = [0u64; 2 * MOST_MEMBERS];
    Ok(judging::judge(survey, vehicle, &mut list))
}

// The judgement on the bytes of both files: the refusal of the first that is refused, or what judge gives. It needs no session, which would be
// copied from call to call.
pub fn judge_files(survey: &[u8], vehicle: &[u8]) -> Result<Judgement, Refusal>
    ensures { judge_answer result ≡ (judge_files survey.now vehicle.now).answer }
{
    judge_vehicle(read_survey(survey)?, vehicle)
}
