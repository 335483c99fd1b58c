// The permitted load by each formula, on whole numbers with the constants multiplied out and one rounding at the end. Factors
// are in tenths, section moduli in thirtieths of a cm³, a dowel's capacity in hundredths of a kgf.
ghost use Rattle.std.specs.Prelude.{◌≡◌, ◌-◌, ◌*◌, ◌/◌, ◌≤◌, ◌<◌, min};
ghost use Rattle.section.specs.Fraction.{over, whole, tenths, hundredths, ◌≐◌};
ghost use Rattle.section.specs.Units.{FitsSigned};
ghost use Rattle.spread.specs.Stiffness.{ten_thousandths};
ghost use Rattle.member.specs.Formula.{stringer, close_stringer, cross_beam, chord, joint, dowelled, keyed, plates, permitted};
ghost use Rattle.member.specs.PermittedLoad.{distribution};
ghost use Rattle.member.specs.Sizes.{Sizes, Spaced, Inside, Ratio};

use section::fraction::{less, lesser, quotient, round_down};
use section::{CentiKgf, Cm, KgfPerM};

// What spreads a load over the members beside it: the spacing d to the neighbour and the vehicle's track.
#[derive(Clone, Copy)]
pub struct Lateral {
    pub d: Cm,
    pub track: Cm,
}

// What every formula takes: the load factor n, the dead load q and the span l.
#[derive(Clone, Copy)]
pub struct Terms {
    pub n: u64,
    pub q: KgfPerM,
    pub l: Cm,
}

impl Terms {
    // x by the load factor, the lateral distribution (2d − e) / 2d and m. The quotient is taken in two steps, since x times 2d need
    // not fit 64 bits.
    fn distributed(self, x: u64, m: u64, s: Lateral) -> KgfPerM
        requires { Sizes self × Spaced s.d.0 × (0 < m) }
        ensures is { result.0 ≡ x * (2 * s.d.0) / (self.n * (2 * s.d.0 - min s.track.0 s.d.0) * m) }
        ensures cap { FitsSigned result.0 }
    {
        let e = lesser(s.track.0, s.d.0);
        let k = 2 * s.d.0;
        KgfPerM(round_down(quotient(x, k, self.n * (k - e)), m))
    }

    // (13)
    pub fn stringer(self, w: u64, k: u64, s: Lateral) -> KgfPerM
        requires { (w ≤ 43200000) × (k ≤ 16) × Sizes self × Spaced s.d.0 }
        ensures is { result.0 ≡ permitted (stringer (over w 30) (tenths k) (tenths self.n) (hundredths self.q.0) (whole self.l.0) (distribution s.d.0 s.track.0)) }
        ensures cap { FitsSigned result.0 }
    {
        let m = self.l.0 * self.l.0;
        self.distributed(less(5120 * w * k, 12 * self.q.0 * m), m, s)
    }

    // (10), with β in ten-thousandths.
    pub fn close_stringer(self, w: u64, k: u64, beta: u64) -> KgfPerM
        requires { (w ≤ 43200000) × (k ≤ 16) × Sizes self × (1 ≤ beta) × (beta ≤ 20000) }
        ensures is { result.0 ≡ permitted (close_stringer (over w 30) (tenths k) (tenths self.n) (hundredths self.q.0) (whole self.l.0) (ten_thousandths beta)) }
        ensures cap { FitsSigned result.0 }
    {
        let m = self.l.0 * self.l.0;
        let front = less(10240 * w * k, 24 * self.q.0 * m);
        KgfPerM(round_down(front * 10000, self.n * beta * m))
    }

    // (30)
    pub fn cross_beam(self, w: u64, k: u64, x: Cm) -> KgfPerM
        requires { (w ≤ 43200000) × (k ≤ 16) × Sizes self × Spaced x.0 }
        ensures is { result.0 ≡ permitted (cross_beam (over w 30) (tenths k) (tenths self.n) (hundredths self.q.0) (whole self.l.0) (whole x.0)) }
        ensures cap { FitsSigned result.0 }
    {
        let front = less(12800 * w * k, 36 * self.q.0 * (self.l.0 * self.l.0));
        KgfPerM(round_down(front, 3 * self.n * (x.0 * self.l.0)))
    }

    // (27)
    pub fn chord(self, h: Cm, f: u64, k: u64, x: Cm, s: Lateral) -> KgfPerM
        requires { (h.0 ≤ 500) × (f ≤ 144000) × (k ≤ 16) × Sizes self × Inside x.0 self.l.0 × Spaced s.d.0 }
        ensures is { result.0 ≡ permitted (chord (whole h.0) (whole f) (tenths k) (tenths self.n) (hundredths self.q.0) (whole self.l.0) (whole x.0) (distribution s.d.0 s.track.0)) }
        ensures cap { FitsSigned result.0 }
    {
        let m = (self.l.0 - x.0) * x.0;
        self.distributed(less(20000 * h.0 * f * k, 12 * self.q.0 * m), m, s)
    }

    // (29), (33) and (34), of what stands in front times 1000 · B.
    pub fn joint(self, front: u64, a: u64, b: u64, x: Cm, s: Lateral) -> KgfPerM
        requires { Sizes self × Ratio a b × Inside x.0 self.l.0 × Spaced s.d.0 }
        ensures is { result.0 ≡ permitted (joint (over front (1000 * b)) (tenths self.n) (hundredths self.q.0) (over a b) (whole self.l.0) (whole x.0) (distribution s.d.0 s.track.0)) }
        ensures cap { FitsSigned result.0 }
    {
        let m = a * ((self.l.0 - x.0) * x.0);
        self.distributed(less(front, 12 * self.q.0 * m), m, s)
    }
}

// What stands in front of (29), times 1000 · B.
pub fn dowelled(h: Cm, t: CentiKgf, k: u64, cuts: u64, b: u64) -> u64
    requires { (h.0 ≤ 500) × (t.0 ≤ 1332000) × (k ≤ 16) × (cuts ≤ 200) × (b ≤ 1000) }
    ensures { over result (1000 * b) ≐ dowelled (whole h.0) (over t.0 100) (tenths k) (whole cuts) }
{
    2 * h.0 * t.0 * k * cuts * b
}

// What stands in front of (33), times 1000 · B.
pub fn keyed(h: Cm, f: u64, s: u64, b: u64) -> u64
    requires { (h.0 ≤ 500) × (f ≤ 10000) × (s ≤ 16) × (b ≤ 1000) }
    ensures { over result (1000 * b) ≐ keyed (whole h.0) (whole f) (tenths s) }
{
    2240 * h.0 * f * s * b
}

// What stands in front of (34), times 1000 · B.
pub fn plates(h: Cm, f: u64, b: u64) -> u64
    requires { (h.0 ≤ 500) × (f ≤ 10000) × (b ≤ 1000) }
    ensures { over result (1000 * b) ≐ plates (whole h.0) (whole f) }
{
    3800000 * h.0 * f * b
}
