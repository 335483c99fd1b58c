// A reading by its bits: a sign, an exponent of eight bits and a mantissa of 23, behind a leading 1 that is not written.
ghost use Rattle.std.specs.Prelude.{◌≡◌, ◌-◌, ◌*◌, ◌^◌, ◌≤◌, ◌<◌};
ghost use Rattle.gauge.specs.Whole.{counted_of};

// 2 to the 23, above the mantissa's bits: where the leading 1 would stand, and the exponent does.
const LEADING_ONE: u32 = 8388608;

// The exponents of 1/64 and of 256: a reading that is not 0 lies from the first to below twice the second. A set sign bit makes it 256 or more.
const LEAST_EXPONENT: u32 = 121;

const GREATEST_EXPONENT: u32 = 135;

// A number with the least exponent is its mantissa, with the leading 1, in so many parts of a 64th.
// Stays: a count of parts beside the bit `LEADING_ONE`, which is as great.
const PARTS: u64 = 8388608;

// A number in parts of a 64th, by its mantissa with the leading 1 and its exponent.
fn scaled(mantissa: u32, exponent: u32) -> u64
    requires { (mantissa < 2 ^ 24) × (121 ≤ exponent) × (exponent ≤ 135) }
    ensures { result ≡ mantissa * 2 ^ (exponent - 121) }
{
    u64::from(mantissa) << (exponent - LEAST_EXPONENT)
}

// A reading in 64ths of a millimetre, where it is one. A NaN has no bits to look at.
pub fn sixty_fourths(x: f32) -> Option<u64>
    ensures { result ≡ counted_of x }
{
    if x.is_nan() {
        return None;
    }
    let bits = x.to_bits();
    if bits == 0 {
        return Some(0);
    }
    let exponent = bits / LEADING_ONE;
    if exponent < LEAST_EXPONENT || GREATEST_EXPONENT < exponent {
        return None;
    }
    let parts = scaled(LEADING_ONE + bits % LEADING_ONE, exponent);
    if parts % PARTS != 0 {
        return None;
    }
    Some(parts / PARTS)
}
