// A member's rating, and the judgement of a bridge from the ratings of its members.
ghost use Rattle.std.specs.Prelude.{◌≡◌, ◌+◌, ◌*◌, ◌≤◌, ◌<◌, length, leb, pos, ◌-ℤ◌, Some};
ghost use Rattle.rating.specs.Text.{verdict_text};
ghost use Rattle.section.specs.Units.{FitsSigned};
ghost use Rattle.member.specs.Format.{AllowedMember, AllowedVehicle};
ghost use Rattle.rating.specs.Surveyed.{members_of, AllowedSurvey};
ghost use Rattle.rating.specs.Judgement.{verdict_of, rating_of, judgement_of, written};
ghost use Rattle.rating.specs.Turn.{both, with_member};

use crate::vehicle::vehicle_load_on;
use member::permitted::permitted_load;
use member::record::*;
use section::KgfPerM;
use std::fmt;

#[derive(Clone, Copy, PartialEq, Eq)]
pub enum Verdict {
    Pass,
    Refuse,
}

impl fmt::Display for Verdict {
    ghost output = { λ verdict. Some (verdict_text verdict) };

    fn fmt<W: fmt::Write>(&self, f: &mut fmt::Formatter<W>) -> fmt::Result {
        f.write_str(match self {
            Verdict::Pass => "pass",
            Verdict::Refuse => "refuse",
        })
    }
}

impl Verdict {
    // Pass where both pass.
    fn and(self, other: Verdict) -> Verdict
        ensures { result ≡ both self other }
    {
        match self {
            Verdict::Pass => other,
            Verdict::Refuse => Verdict::Refuse,
        }
    }
}

// What rate gives of a member.
#[derive(Clone, Copy)]
pub struct Rating {
    pub permitted: KgfPerM,
    pub load: KgfPerM,
    pub verdict: Verdict,
    // The permitted load less the vehicle load, in kgf/m.
    pub margin: i64,
}

// What judge gives of a bridge: the least permitted load, the place of the member that governs, which has the least margin, the verdict,
// and that margin.
#[derive(Clone, Copy)]
pub struct Judgement {
    pub figure: KgfPerM,
    pub governing: u64,
    pub verdict: Verdict,
    pub margin: i64,
}

// A vehicle load at most the permitted load passes.
fn verdict_of(load: KgfPerM, permitted: KgfPerM) -> Verdict
    ensures { result ≡ verdict_of (leb load.0 permitted.0) }
{
    if load <= permitted {
        Verdict::Pass
    } else {
        Verdict::Refuse
    }
}

// The margin, below 0 where the vehicle load is above the permitted load. Both are below 2^63, so the difference fits.
fn margin_of(permitted: KgfPerM, load: KgfPerM) -> i64
    requires { FitsSigned permitted.0 × FitsSigned load.0 }
    ensures { result ≡ pos permitted.0 -ℤ pos load.0 }
{
    permitted.0 as i64 - load.0 as i64
}

// The rating of a member for a vehicle.
pub fn rate(m: Member, v: Vehicle) -> Rating
    requires { AllowedMember m × AllowedVehicle v }
    ensures { result ≡ rating_of m v }
{
    let permitted = permitted_load(m, v.class, v.track);
    let load = vehicle_load_on(m, v);
    Rating {
        permitted,
        load,
        verdict: verdict_of(load, permitted),
        margin: margin_of(permitted, load),
    }
}

// The judgement of the members so far and one more. A tie leaves the earlier member governing.
#[tactic(auto, unfolding(crate::specs::Turn::with_member))]
fn with_member(j: Judgement, r: Rating, place: u64) -> Judgement
    ensures { result ≡ with_member j r place }
{
    // Stays: no Option for "none yet", since `with_member` of specs/ chooses by the place.
    let first = place == 1;
    let lower = first || r.permitted < j.figure;
    let governs = first || r.margin < j.margin;
    Judgement {
        figure: if lower { r.permitted } else { j.figure },
        governing: if governs { place } else { j.governing },
        verdict: j.verdict.and(r.verdict),
        margin: if governs { r.margin } else { j.margin },
    }
}

// The judgement of a bridge for a vehicle. Each member's permitted load and vehicle load go into the list, in the members'
// order; entries beyond are kept.
pub fn judge(s: Survey, v: Vehicle, list: &mut [u64]) -> Judgement
    requires { AllowedSurvey s × AllowedVehicle v × (2 * s.count ≤ length list.old) }
    ensures is { result ≡ judgement_of (members_of s) v }
    ensures list { list.new ≡ written v (members_of s) list.old }
{
    let mut j = Judgement {
        figure: KgfPerM(0),
        governing: 0,
        verdict: Verdict::Pass,
        margin: 0,
    };
    for (i, m) in s.members[..s.count].iter().enumerate() {
        let r = rate(*m, v);
        list[2 * i] = r.permitted.0;
        list[2 * i + 1] = r.load.0;
        j = with_member(j, r, i as u64 + 1);
    }
    j
}
