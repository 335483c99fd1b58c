// Each member's lowest and highest permitted load, and the verdict of the two ends.
ghost use Rattle.std.specs.Prelude.{◌≡◌, ◌*◌, ◌≤◌, length, get_or};
ghost use Rattle.member.specs.Fields.{MOST_MEMBERS};
ghost use Rattle.member.specs.Format.{AllowedVehicle};
ghost use Rattle.rating.specs.Judgement.{permitted_for, judgement_of};
ghost use Rattle.rating.specs.Surveyed.{AllowedSurvey, member_at, members_of};
ghost use Rattle.between.specs.Between.{verdict_between, bounds_written};

use crate::Between;
use member::record::{MOST_MEMBERS, Survey, Vehicle};
use rating::judging;
use rating::judging::Verdict;

// A member's permitted load and its vehicle load: what a judgement writes of the longest survey.
const LOADS: usize = 2 * MOST_MEMBERS;

fn verdict_between(first: Verdict, second: Verdict) -> Between
    ensures { result ≡ verdict_between first second }
{
    match (first, second) {
        (Verdict::Pass, Verdict::Pass) => Between::All,
        (Verdict::Refuse, Verdict::Refuse) => Between::None,
        _ => Between::Undecided,
    }
}

// The permitted loads of both surveys into the list, the lowest first. Each stands before its vehicle load.
fn put_bounds(list: &mut [u64], low: &[u64], high: &[u64], count: usize)
    requires { (2 * count ≤ length low.now) × (2 * count ≤ length high.now) × (2 * count ≤ length list.old) }
    ensures { list.new ≡ bounds_written (λ i. get_or low.now (2 * i) 0) (λ i. get_or high.now (2 * i) 0) count list.old }
{
    for i in 0..count {
        let at = 2 * i;
        list[at] = low[at];
        list[at + 1] = high[at];
    }
}

// Judges both surveys, and fills the list.
pub fn fill(first: Survey, second: Survey, v: Vehicle, list: &mut [u64]) -> Between
    requires { AllowedSurvey first × AllowedSurvey second × AllowedVehicle v × (first.count ≡ second.count) × (2 * first.count ≤ length list.old) }
    ensures is { result ≡ verdict_between (judgement_of (members_of first) v).verdict (judgement_of (members_of second) v).verdict }
    ensures list { list.new ≡ bounds_written (λ i. permitted_for v (member_at second.members i)) (λ i. permitted_for v (member_at first.members i)) first.count list.old }
{
    let mut high = [0u64; LOADS];
    let best = judging::judge(first, v, &mut high);
    let mut low = [0u64; LOADS];
    let worst = judging::judge(second, v, &mut low);
    put_bounds(list, &low, &high, first.count);
    verdict_between(best.verdict, worst.verdict)
}
