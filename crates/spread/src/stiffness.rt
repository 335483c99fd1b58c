// The stiffness number k, in ten-thousandths.
ghost use Rattle.std.specs.Prelude.{◌≡◌, ◌≤◌};
ghost use Rattle.section.specs.Fraction.{over, whole};
ghost use Rattle.spread.specs.Stiffness.{stiffness_number};

use section::Cm;
use section::fraction::{quotient, round_down};

const GREATEST: u64 = 100000;

// Of the moments of inertia of a stringer and of the deck, in twelfths. 20,000 times the front need not fit 64 bits, so that quotient is
// taken by parts; one more and halved, it is that of 10,000 times the front, rounded half up.
pub fn stiffness_number(d: Cm, inertia: u64, l: Cm, deck: u64) -> u64
    requires { (d.0 ≤ 100) × (inertia ≤ 518400000) × (100 ≤ l.0) × (l.0 ≤ 5000) × (deck ≤ 4800000) }
    ensures is { result ≡ stiffness_number (whole d.0) (over inertia 12) (whole l.0) (over deck 12) }
    ensures cap { result ≤ 100000 }
{
    if deck == 0 {
        return GREATEST;
    }
    let front = 8 * (d.0 * d.0 * d.0) * inertia;
    let divisor = l.0 * l.0 * l.0 * deck;
    let doubled = quotient(1000 * front, 20, divisor);
    round_down(doubled + 1, 2).min(GREATEST)
}
