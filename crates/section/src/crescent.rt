// Section modulus of logs that rot from above only, in tenths of a cm³.
ghost use Rattle.std.specs.Prelude.{◌≡◌, ◌≤◌};
ghost use Rattle.section.specs.Crescent.{crescent_modulus, tiered_crescent};

use crate::Cm;
use crate::log::{log_modulus, tiered};

// The deepest crescent of the printed table: the length of a row below.
const DEEPEST: u64 = 17;

// By diameter 14 to 36, and in each row by depth 1 to 17; 0 where the row has ended.
const MODULUS: [u64; 391] = [
    2255, // 14
    1859, 1499, 1196, 925, 694, 500, 0, // 14 has ended
    0, 0, 0, 0, 0, 0, 0, 0, 0, 2808, // 15
    2348, 1939, 1568, 1243, 962, 720, 0, // 15 has ended
    0, 0, 0, 0, 0, 0, 0, 0, 0, 3450, // 16
    2920, 2440, 2010, 1630, 1290, 1000, 750, 0, // 16 has ended
    0, 0, 0, 0, 0, 0, 0, 0, 4200, // 17
    3570, 3020, 2530, 2080, 1680, 1330, 1030, 0, // 17 has ended
    0, 0, 0, 0, 0, 0, 0, 0, 4990, // 18
    4310, 3690, 3120, 2610, 2150, 1740, 1380, 1050, 0, // 18 has ended
    0, 0, 0, 0, 0, 0, 0, 5920, // 19
    5160, 4450, 3810, 3220, 2690, 2220, 1790, 1420, 0, // 19 has ended
    0, 0, 0, 0, 0, 0, 0, 6940, // 20
    6100, 5310, 4590, 3920, 3320, 2770, 2270, 1840, 1460, 0, // 20 has ended
    0, 0, 0, 0, 0, 0, 8090, // 21
    7150, 6280, 5470, 4720, 4040, 3410, 2850, 2340, 1890, 0, // 21 has ended
    0, 0, 0, 0, 0, 0, 9350, // 22
    8320, 7350, 6450, 5620, 4850, 4140, 3500, 2920, 2400, 1940, 0, // 22 has ended
    0, 0, 0, 0, 0, 10740, // 23
    9600, 8540, 7540, 6620, 5760, 4970, 4250, 3590, 3000, 2460, 0, // 23 has ended
    0, 0, 0, 0, 0, 12250, // 24
    11010, 9850, 8750, 7730, 6780, 5900, 5090, 4350, 3680, 3070, 2520, 0, // 24 has ended
    0, 0, 0, 0, 13910, // 25
    12560, 11280, 10080, 8960, 7910, 6940, 6040, 5210, 4450, 3760, 3140, 0, // 25 has ended
    0, 0, 0, 0, 15710, // 26
    14240, 12850, 11550, 10320, 9170, 8100, 7100, 6180, 5330, 4550, 3840, 3200, 0, // 26 has ended
    0, 0, 0, 17650, // 27
    16060, 14560, 13140, 11800, 10540, 9370, 8270, 7250, 6310, 5440, 4640, 3920, 0, // 27 has ended
    0, 0, 0, 19750, // 28
    18040, 16420, 14880, 13420, 12010, 10770, 9570, 8430, 7400, 6440, 5550, 4740, 4000, 0, // 28 has ended
    0, 0, 22010, // 29
    20170, 18420, 16760, 15180, 13700, 12300, 10990, 9760, 8610, 7550, 6560, 5660, 4830, 0, // 29 has ended
    0, 0, 24440, // 30
    22460, 20580, 18790, 17090, 15490, 13970, 12540, 11200, 9950, 8780, 7690, 6690, 5770, 4920, 0, // 30 has ended
    0, 27040, // 31
    24920, 22900, 20980, 19160, 17420, 15780, 14230, 12780, 11410, 10130, 8940, 7830, 6810, 5870,
    0, // 31 has ended
    0, 29810, // 32
    27550, 25400, 23340, 21380, 19510, 17750, 16070, 14500, 12920, 11620, 10310, 9100, 7970, 6930,
    5970, 0, // 32 has ended
    32770, // 33
    30370, 28060, 25860, 23760, 21760, 19860, 18060, 16360, 14750, 13240, 11820, 10490, 9260, 8110,
    7050, 0, // 33 has ended
    35950, // 34
    33360, 30910, 28560, 26320, 24180, 22140, 20210, 18380, 16640, 15000, 13460, 12020, 10670,
    9410, 8240, 7170, 39270, // 35
    36550, 33940, 31450, 29540, 26770, 24590, 22520, 20550, 18680, 16920, 15250, 13680, 12210,
    10840, 9560, 8380, 42810, // 36
    39940, 37170, 34510, 31970, 29540, 27210, 24990, 22890, 20880, 18980, 17190, 15490, 13900,
    12410, 11010, 9410,
];

// W of one log.
pub fn crescent_modulus(diameter: Cm, depth: Cm) -> u64
    requires { (14 ≤ diameter.0) × (diameter.0 ≤ 36) }
    ensures is { result ≡ crescent_modulus diameter.0 depth.0 }
    ensures cap { result ≤ 45800 }
{
    if depth.0 == 0 {
        return 10 * log_modulus(diameter);
    }
    // Never on into the row of a thicker log.
    if DEEPEST < depth.0 {
        return 0;
    }
    let row = diameter.0 - 14;
    let at = (DEEPEST * row + (depth.0 - 1)) as usize;
    MODULUS[at]
}

// Logs that lie one on another in tiers, each of this diameter, with the depth of the crescent that is rotten on the top one.
#[derive(Clone, Copy)]
pub struct Crescent {
    pub diameter: Cm,
    pub depth: Cm,
    pub tiers: u64,
}

// The top log has the crescent, the others are sound.
pub fn tiered_crescent(s: Crescent) -> u64
    requires { (14 ≤ s.diameter.0) × (s.diameter.0 ≤ 36) × (1 ≤ s.tiers) × (s.tiers ≤ 3) }
    ensures is { result ≡ tiered_crescent s.diameter.0 s.depth.0 s.tiers }
    ensures cap { result ≤ 137400 }
{
    let top = crescent_modulus(s.diameter, s.depth);
    tiered(top, crescent_modulus(s.diameter, Cm(0)), s.tiers)
}
