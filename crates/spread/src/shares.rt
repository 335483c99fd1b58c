// The shares of a spread as whole numbers over one divisor. k is in ten-thousandths: the document's polynomials are multiplied by 10,000, its
// square or its cube, by the highest power of k in them.
ghost use Rattle.std.specs.Prelude.{◌≡◌, ◌*◌, ◌≤◌, ◌<◌};
ghost use Rattle.spread.specs.Spread.{three_stringers, five_stringers, seven_stringers, spread_of};
ghost use Rattle.spread.specs.Stiffness.{ten_thousandths};
ghost use Rattle.spread.specs.Scaled.{part, SharesOf, Bounded};

// Stays: `Bounded` is a clause of each function, since it names `Shares` and docs/ARCHITECTURE.md names it: no ghost field can cite it.
// Of the loaded stringer and of those one, two and three spacings from it.
#[derive(Clone, Copy)]
pub struct Shares {
    pub own: u64,
    pub next: u64,
    pub second: u64,
    pub third: u64,
    pub divisor: u64,
}

// 0.055, in ten-thousandths: below it seven stringers share.
const SEVEN_BELOW: u64 = 550;

// Where k is 1/3 or more.
fn three_stringers(k: u64) -> Shares
    requires { k ≤ 100000 }
    ensures is { SharesOf (three_stringers (ten_thousandths k)) result }
    ensures bounded { Bounded result }
{
    let one: u64 = 10000;
    Shares {
        own: one + 2 * k,
        next: one,
        second: 0,
        third: 0,
        divisor: 3 * one + 2 * k,
    }
}

// Where k is below 1/3, but not below 0.055.
fn five_stringers(k: u64) -> Shares
    requires { 3 * k < 10000 }
    ensures is { SharesOf (five_stringers (ten_thousandths k)) result }
    ensures bounded { Bounded result }
{
    let one: u64 = 100000000;
    let linear = 10000 * k;
    let square = k * k;
    Shares {
        own: one + 18 * linear + 7 * square,
        next: one + 11 * linear,
        second: one - 3 * linear,
        third: 0,
        divisor: 5 * one + 34 * linear + 7 * square,
    }
}

// Where k is below 0.055.
fn seven_stringers(k: u64) -> Shares
    requires { k < 550 }
    ensures is { SharesOf (seven_stringers (ten_thousandths k)) result }
    ensures bounded { Bounded result }
{
    let one: u64 = 1000000000000;
    let linear = 100000000 * k;
    let square = 10000 * (k * k);
    let cube = k * k * k;
    Shares {
        own: one + 72 * linear + 131 * square + 26 * cube,
        next: one + 57 * linear + 46 * square,
        second: one + 23 * linear - 18 * square,
        third: one + 3 * square - 18 * linear,
        divisor: 7 * one + 196 * linear + 193 * square + 26 * cube,
    }
}

// The shares at a stiffness number.
pub fn shares_of(k: u64) -> Shares
    requires { k ≤ 100000 }
    ensures is { SharesOf (spread_of (ten_thousandths k)) result }
    ensures bounded { Bounded result }
{
    if k < SEVEN_BELOW {
        return seven_stringers(k);
    }
    if 3 * k < 10000 {
        return five_stringers(k);
    }
    three_stringers(k)
}

impl Shares {
    // The share of a stringer that stands this many spacings away; those farther off have none.
    pub fn share_at(self, away: u64) -> u64
        ensures { result ≡ part self away }
    {
        match away {
            0 => self.own,
            1 => self.next,
            2 => self.second,
            3 => self.third,
            _ => 0,
        }
    }
}
