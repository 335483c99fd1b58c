// β of formula (10), in ten-thousandths: the most that a stringer carries of both wheels of an axle.
ghost use Rattle.std.specs.Prelude.{◌≡◌, ◌+◌, ◌*◌, ◌^◌, ◌≤◌, ◌<◌};
ghost use Rattle.section.specs.Greatest.{top};
ghost use Rattle.spread.specs.Beta.{beta};
ghost use Rattle.spread.specs.Scaled.{scaled_carried, Bounded};

use crate::shares::{Shares, shares_of};
use section::Cm;
use section::fraction::{greater, round_up};

// The two wheels of an axle on stringers that stand d apart: the first is over stringer 3, the second r beyond stringer 3 + m.
#[derive(Clone, Copy)]
struct Wheels {
    shares: Shares,
    d: u64,
    m: u64,
    r: u64,
    ghost placed: { Bounded shares × (d ≤ 100) × (r ≤ d) × (m + 8 < 2 ^ 64) },
}

impl Wheels {
    // What stringer i carries, times the divisor and the spacing.
    fn carried(self, i: u64) -> u64
        ensures { result ≡ scaled_carried self.shares self.d self.m self.r i }
    {
        let first = self.shares.share_at(i.abs_diff(3)) * self.d;
        let near = (self.d - self.r) * self.shares.share_at(i.abs_diff(self.m + 3));
        let far = self.r * self.shares.share_at(i.abs_diff(self.m + 4));
        first + (near + far)
    }

    // The greatest over the stringers from 0 to m + 7: any other is more than three spacings from both wheels.
    fn greatest_carried(self) -> u64
        ensures { result ≡ top (scaled_carried self.shares self.d self.m self.r) (self.m + 8) }
    {
        let mut most: u64 = 0;
        for i in 0..self.m + 8 {
            most = greater(most, self.carried(i));
        }
        most
    }
}

// β at a stiffness number in ten-thousandths, rounded up once.
pub fn beta(k: u64, d: Cm, track: Cm) -> u64
    requires { (k ≤ 100000) × (30 ≤ d.0) × (d.0 ≤ 100) }
    ensures is { result ≡ beta k d.0 track.0 }
    ensures cap { result ≤ 20000 }
{
    let shares = shares_of(k);
    let wheels = Wheels {
        shares,
        d: d.0,
        m: track.0 / d.0,
        r: track.0 % d.0,
    };
    round_up(10000 * wheels.greatest_carried(), shares.divisor * d.0)
}
