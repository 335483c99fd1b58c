// Section modulus of logs, in cm³.
ghost use Rattle.std.specs.Prelude.{◌≡◌, ◌+◌, ◌-◌, ◌*◌, ◌^◌, ◌<◌, ◌≤◌};
ghost use Rattle.section.specs.Log.{net_diameter, log_modulus, tiered_modulus};
ghost use Rattle.section.specs.Sizes.{LogSizes};

use crate::Cm;
use crate::fraction::less;

// By net diameter 13 to 39.
const MODULUS: [u64; 27] = [
    216, 269, 331, 402, 482, 573, 673, 785, 909, 1045, 1194, 1357, 1534, 1726, 1932, 2155, 2394,
    2651, 2925, 3217, 3528, 3859, 4209, 4580, 4973, 5387, 5824,
];

// Rot counts all round.
pub fn net_diameter(diameter: Cm, rot: Cm) -> Cm
    requires { rot.0 ≤ 60 }
    ensures is { result.0 ≡ net_diameter diameter.0 rot.0 }
    ensures cap { result.0 ≤ diameter.0 }
{
    Cm(less(diameter.0, 2 * rot.0))
}

pub fn log_modulus(net: Cm) -> u64
    requires { net.0 ≤ 39 }
    ensures is { result ≡ log_modulus net.0 }
    ensures cap { result ≤ 5824 }
{
    if net.0 < 13 {
        return 0;
    }
    let at = (net.0 - 13) as usize;
    MODULUS[at]
}

// The sum over logs that lie one on another: the top one is decayed, the others are sound.
pub fn tiered(top: u64, sound: u64, tiers: u64) -> u64
    requires { (top < 2 ^ 32) × (sound < 2 ^ 32) × (1 ≤ tiers) × (tiers ≤ 3) }
    ensures is { result ≡ top + (tiers - 1) * sound }
    ensures cap { result ≤ top + 2 * sound }
{
    let below = tiers - 1;
    top + below * sound
}

// Logs that lie one on another in tiers, each of this diameter, with the rot of the top one.
#[derive(Clone, Copy)]
pub struct Log {
    pub diameter: Cm,
    pub rot: Cm,
    pub tiers: u64,
}

pub fn tiered_modulus(s: Log) -> u64
    requires { LogSizes s }
    ensures { result ≡ tiered_modulus s.diameter.0 s.rot.0 s.tiers }
{
    let top = log_modulus(net_diameter(s.diameter, s.rot));
    tiered(top, log_modulus(s.diameter), s.tiers)
}
