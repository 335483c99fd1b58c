// An axle of the file: weight, then distance from the axle in front. The version decides how many bytes a weight has.
ghost use Rattle.std.specs.Prelude.{◌≡◌, ◌+◌, ◌*◌, ◌≤◌, ◌<◌, length};
ghost use Rattle.member.specs.Fields.{MOST_AXLES};
ghost use Rattle.files.specs.Header.{version_of};
ghost use Rattle.files.specs.Words.{number_at};
ghost use Rattle.vehicles.specs.VehicleFile.{VEHICLE_HEADER, LONGEST_AXLE, weight_bytes, axle_size, axle_at, weight_at, distance_at, axle_field, weights_in, axle_range};

use files::limits::Limits;
use files::words::word_at;

// The letters, the version, class, track and count.
pub const HEADER: usize = 9;

// The bytes of the longest axle, that of version 2.
pub const LONGEST_AXLE: usize = 6;

// The fields of an axle: its weight, and its distance from the axle in front.
// Stays: numbers, since document 01's named form loops over the fields, and `axle_limits` and `axle_field` promise for every number.
pub const WEIGHT: usize = 0;

pub const DISTANCE: usize = 1;

pub const AXLE_FIELDS: usize = 2;

// "0 for the first, 1..2000 after"
const NO_DISTANCE: Limits = Limits { low: 0, high: 0 };

const DISTANCES: Limits = Limits { low: 1, high: 2000 };

// How many bytes a weight has.
// Stays: the version is a number, since `vehicle_length` cuts a yard by the version of files that are not tested yet, whatever it is.
pub fn weight_bytes(version: u16) -> usize
    ensures is { result ≡ weight_bytes version }
    ensures cap { result ≤ 4 }
{
    if version == 2 { 4 } else { 2 }
}

// How many bytes an axle has.
pub fn axle_size(version: u16) -> usize
    ensures is { result ≡ axle_size version }
    ensures cap { result ≤ LONGEST_AXLE }
{
    weight_bytes(version) + 2
}

// The u32 at a place, its low byte first.
fn long_at(bytes: &[u8], at: usize) -> u32
    requires { at + 3 < length bytes.now }
    ensures { result ≡ number_at 4 bytes.now at }
{
    u32::from_le_bytes([bytes[at], bytes[at + 1], bytes[at + 2], bytes[at + 3]])
}

// The axles of a file: its bytes, its version, and how many axles lie within it.
#[derive(Clone, Copy)]
pub struct Axles<'a> {
    pub bytes: &'a [u8],
    pub version: u16,
    pub count: usize,
    pub ghost own: { version ≡ version_of bytes.now },
    pub ghost few: { count ≤ MOST_AXLES },
    pub ghost whole: { axle_at bytes.now count ≤ length bytes.now },
}

impl Axles<'_> {
    // Where an axle begins.
    fn begin(self, axle: usize) -> usize
        requires { axle < self.count }
        ensures { result ≡ VEHICLE_HEADER + axle_size self.entry.version * axle }
    {
        HEADER + axle_size(self.version) * axle
    }

    fn weight(self, axle: usize) -> u32
        requires { axle < self.count }
        ensures { result ≡ weight_at self.entry.bytes.now axle }
    {
        let at = self.begin(axle);
        if self.version == 2 {
            long_at(self.bytes, at)
        } else {
            u32::from(word_at(self.bytes, at))
        }
    }

    fn distance(self, axle: usize) -> u32
        requires { axle < self.count }
        ensures { result ≡ distance_at self.entry.bytes.now axle }
    {
        let at = self.begin(axle) + weight_bytes(self.version);
        u32::from(word_at(self.bytes, at))
    }

    // The number in a field of an axle.
    pub fn field(self, axle: usize, field: usize) -> u32
        requires { axle < self.count }
        ensures { result ≡ axle_field self.entry.bytes.now axle field }
    {
        if field == WEIGHT {
            self.weight(axle)
        } else {
            self.distance(axle)
        }
    }
}

// "weight 1..60000", of version 2 "1..200000"
pub fn most_weight(version: u16) -> u32
    ensures { result ≡ (weights_in version).high }
{
    if version == 2 { 200000 } else { 60000 }
}

// The weight's range, and "distance from the axle in front, 0 for the first, 1..2000 after"
pub fn axle_limits(version: u16, axle: usize, field: usize) -> Limits
    ensures { (result.low ≡ (axle_range version axle field).low) × (result.high ≡ (axle_range version axle field).high) }
{
    if field == WEIGHT {
        let high = most_weight(version);
        return Limits { low: 1, high };
    }
    if axle == 0 { NO_DISTANCE } else { DISTANCES }
}
