// The influence line: the greatest that a row of axles gives on a triangle, over every position. Only the positions that
// put an axle over the apex are tried, in both directions of travel; proofs/Apex.antt shows that they are enough.
#![tactic(auto)]

ghost use Rattle.std.specs.Prelude.{◌≡◌, ◌+◌, ◌-◌, ◌*◌, ◌≤◌, ◌<◌, length};
ghost use Rattle.section.specs.Fraction.{over, ceiling};
ghost use Rattle.section.specs.Units.{FitsSigned};
ghost use Rattle.influence.specs.Influence.{Triangle, per_metre, vehicle_load};
ghost use Rattle.influence.specs.Scaled.{scaled_height, scaled_sum, apex_top, scaled_greatest};
ghost use Rattle.influence.specs.Rows.{BoundedOn, on};

pub mod axles;

use axles::Axles;
use section::{Cm, KgfPerM, fraction};

// A length along the base, in half centimetres.
#[derive(Clone, Copy, PartialEq, Eq)]
pub struct HalfCm(pub u64);

// Stays: `From` could not ask for a span of at most 5000 cm, and from `Cm` there are two ways.
// Two half centimetres to the centimetre; a span is at most 5000 cm.
pub fn half_cm(d: Cm) -> HalfCm
    requires { d.0 ≤ 5000 }
    ensures { result.0 ≡ 2 * d.0 }
{
    HalfCm(2 * d.0)
}

// Half of a length: l / 2 is l half centimetres.
pub fn half_of(l: Cm) -> HalfCm
    ensures { result.0 ≡ l.0 }
{
    HalfCm(l.0)
}

impl HalfCm {
    // This and `more`, of which neither lies beyond the longest base and the longest vehicle.
    fn further(self, more: HalfCm) -> HalfCm
        requires { (self.0 ≤ 80000) × (more.0 ≤ 80000) }
        ensures { result.0 ≡ self.0 + more.0 }
    {
        HalfCm(self.0 + more.0)
    }

    // How far this lies beyond `start`, 0 where it does not.
    fn beyond(self, start: HalfCm) -> HalfCm
        ensures { result.0 ≡ self.0 - start.0 }
    {
        HalfCm(self.0.saturating_sub(start.0))
    }
}

// An influence line: a triangle on this base. The apex is so far from the end at which the vehicle comes on.
#[derive(Clone, Copy)]
pub struct Line {
    pub base: HalfCm,
    pub apex: HalfCm,
}

// A sum of weight × height, where every height is multiplied by apex × (base − apex): kgf times square half centimetres.
#[derive(Clone, Copy, PartialEq, Eq, PartialOrd, Ord)]
struct ScaledSum(u64);

impl Line {
    // As it is met from the other end.
    fn mirrored(self) -> Line
        ensures { (result.base.0 ≡ self.base.0) × (result.apex.0 ≡ self.base.0 - self.apex.0) }
    {
        Line {
            base: self.base,
            apex: self.base.beyond(self.apex),
        }
    }

    // The height at `place` times apex × (base − apex), a whole number.
    fn scaled_height(self, place: HalfCm) -> u64
        requires { (self.apex.0 ≤ self.base.0) × (self.base.0 ≤ 10000) }
        ensures { result ≡ scaled_height self.base.0 self.apex.0 place.0 }
    {
        if place.0 <= self.apex.0 {
            place.0 * (self.base.0 - self.apex.0)
        } else {
            self.base.beyond(place).0 * self.apex.0
        }
    }
}

// The sum with the front axle at `front`.
fn sum_at(line: Line, axles: Axles, front: HalfCm) -> ScaledSum
    requires { BoundedOn line axles }
    ensures { result.0 ≡ on scaled_sum line axles.entry front.0 }
{
    let mut sum: u64 = 0;
    let mut place = front;
    for i in 0..axles.weights.len() {
        place = place.beyond(half_cm(axles.distances[i]));
        // This axle and all behind it are not on the base yet.
        if place.0 == 0 {
            break;
        }
        sum += axles.weights[i].0 * line.scaled_height(place);
    }
    ScaledSum(sum)
}

// The greatest of the sums that put an axle over the apex.
fn apex_top(line: Line, axles: Axles) -> ScaledSum
    requires { BoundedOn line axles }
    ensures { result.0 ≡ on apex_top line axles.entry }
{
    let mut top = ScaledSum(0);
    let mut front = line.apex;
    for j in 0..axles.weights.len() {
        front = front.further(half_cm(axles.distances[j]));
        let sum = sum_at(line, axles, front);
        top = top.max(sum);
    }
    top
}

// The greatest in either direction of travel: the same from both ends where the apex is in the middle.
fn either_way(line: Line, axles: Axles) -> ScaledSum
    requires { BoundedOn line axles }
    ensures { result.0 ≡ on scaled_greatest line axles.entry }
{
    let top = apex_top(line, axles);
    let mirrored = line.mirrored();
    if mirrored.apex == line.apex {
        return top;
    }
    top.max(apex_top(mirrored, axles))
}

// The vehicle load's formula, rounded up once, of a sum that is scaled by apex × (base − apex). The sum is at most that of 16
// axles of 200,000 kgf at a scaled height of 10,000 × 10,000.
fn per_metre(line: Line, sum: ScaledSum) -> KgfPerM
    requires { Triangle line.base.0 line.apex.0 × (line.base.0 ≤ 10000) × (sum.0 ≤ 320000000000000) }
    ensures is { result.0 ≡ ceiling (per_metre line.base.0 (over sum.0 (line.apex.0 * (line.base.0 - line.apex.0)))) }
    ensures cap { FitsSigned result.0 }
{
    let base = line.base.0;
    let scale = line.apex.0 * (base - line.apex.0);
    KgfPerM(fraction::round_up(400 * sum.0, scale * base))
}

// The vehicle load: the greatest that any position of the axles gives, in either direction of travel, rounded up once.
pub fn vehicle_load(line: Line, axles: Axles) -> KgfPerM
    requires { BoundedOn line axles }
    ensures is { result.0 ≡ vehicle_load line.base.0 line.apex.0 axles.entry.weights.now axles.entry.distances.now (length axles.entry.weights.now) }
    ensures cap { FitsSigned result.0 }
{
    per_metre(line, either_way(line, axles))
}
