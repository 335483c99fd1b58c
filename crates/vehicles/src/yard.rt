// The vehicle files of a yard, which stand one behind the other.
ghost use Rattle.std.specs.Prelude.{◌≡◌, min, length};
ghost use Rattle.vehicles.specs.YardFile.{own_length};

use crate::axle::{HEADER, axle_size};
use files::words::word_at;

// The most vehicles of a yard.
pub const MOST_VEHICLES: usize = 32;

// The length of the vehicle file at the head of these bytes: as its own version and count say, or all that is left.
pub fn vehicle_length(bytes: &[u8]) -> usize
    ensures { result ≡ min (own_length bytes.now) (length bytes.now) }
{
    let left = bytes.len();
    if left < HEADER {
        return left;
    }
    let size = axle_size(word_at(bytes, 3));
    let own = HEADER + size * usize::from(bytes[8]);
    own.min(left)
}
