// The bytes of a vehicle's file, in either version.
ghost use Rattle.std.specs.Prelude.{◌≡◌, ◌≤◌, length, take};
ghost use Rattle.member.specs.Fields.{MOST_AXLES};
ghost use Rattle.vehicles.specs.VehicleFile.{VEHICLE_HEADER};
ghost use Rattle.convert.specs.VehicleBytes.{LONGEST_FILE, head_bytes, vehicle_bytes};

use files::output::put_number;
use member::record::{MOST_AXLES, Vehicle};
use vehicles::axle::{HEADER, LONGEST_AXLE, axle_size, weight_bytes};

// The longest file: sixteen axles of version 2.
pub const LONGEST_FILE: usize = HEADER + LONGEST_AXLE * MOST_AXLES;

// "TBV, u16 version .., u8 class, u16 track .., u8 axles"
fn head_bytes(v: Vehicle, version: u16) -> [u8; LONGEST_FILE]
    ensures { take VEHICLE_HEADER result ≡ head_bytes version v }
{
    let mut row = [0; LONGEST_FILE];
    row[..3].copy_from_slice(b"TBV");
    put_number(&mut row, 3, 2, u64::from(version));
    put_number(&mut row, 5, 1, u64::from(v.class));
    put_number(&mut row, 6, 2, v.track.0);
    put_number(&mut row, 8, 1, v.axles as u64);
    row
}

// The vehicle's file in this version; what stands behind it is not looked at.
pub fn vehicle_bytes(v: Vehicle, version: u16) -> [u8; LONGEST_FILE]
    requires { v.axles ≤ MOST_AXLES }
    ensures { take (length (vehicle_bytes version v)) result ≡ vehicle_bytes version v }
{
    let width = weight_bytes(version);
    let size = axle_size(version);
    let mut row = head_bytes(v, version);
    for i in 0..v.axles {
        let at = HEADER + size * i;
        put_number(&mut row, at, width, v.weights[i].0);
        put_number(&mut row, at + width, 2, v.distances[i].0);
    }
    row
}
