// Whole numbers for the fractions of the formulas: a truncated difference, the lesser and the greater of two, and
// quotients that are rounded once.
ghost use Rattle.std.specs.Prelude.{◌≡◌, ◌+◌, ◌-◌, ◌*◌, ◌/◌, ◌^◌, ◌<◌, ◌≤◌, min, max};
ghost use Rattle.section.specs.Fraction.{over, floor, ceiling, RoundedDown, RoundedUp};

// Stays: `less`, `lesser` and `greater` are public, and six must-fail edits stand on them, from subtraction_turned_round to second_for_greater.
// a less b, and 0 where that would fall below 0.
pub fn less(a: u64, b: u64) -> u64
    ensures { result ≡ a - b }
{
    a.saturating_sub(b)
}

pub fn lesser(a: u64, b: u64) -> u64
    ensures { result ≡ min a b }
{
    a.min(b)
}

pub fn greater(a: u64, b: u64) -> u64
    ensures { result ≡ max a b }
{
    a.max(b)
}

// n over d, rounded down once.
pub fn round_down(n: u64, d: u64) -> u64
    requires { 0 < d }
    ensures is { result ≡ floor (over n d) }
    ensures once { RoundedDown (over n d) result }
{
    n / d
}

// n over d, rounded up once.
pub fn round_up(n: u64, d: u64) -> u64
    requires { 0 < d }
    ensures is { result ≡ ceiling (over n d) }
    ensures once { RoundedUp (over n d) result }
{
    n.div_ceil(d)
}

// n times k over d, rounded down once, where the product n times k need not fit 64 bits: the whole part of n over d, and the rest.
pub fn quotient(n: u64, k: u64, d: u64) -> u64
    requires { (0 < d) × (k ≤ d) × (d * k < 2 ^ 64) }
    ensures { result ≡ n * k / d }
{
    round_down(n, d) * k + round_down(n % d * k, d)
}
