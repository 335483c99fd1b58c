// Reading a vehicle file: the header's tests with class and track, then the first fault in the order of axles.
ghost use Rattle.std.specs.Prelude.{◌≡◌, ◌≤◌, ◌<◌, length};
ghost use Rattle.files.specs.Fault.{fault_of};
ghost use Rattle.files.specs.Reading.{first_fault, taken};
ghost use Rattle.member.specs.Fields.{MOST_AXLES};
ghost use Rattle.member.specs.Format.{◌‥◌};
ghost use Rattle.vehicles.specs.VehicleFile.{axles_of, field_within, axle_faults, vehicle_header, vehicle_of, blank_vehicle, read_vehicle_of, read_vehicle};

use crate::axle::{AXLE_FIELDS, Axles, DISTANCE, HEADER, WEIGHT, axle_limits, axle_size};
use files::Refusal;
use files::fault::Fault;
use files::header::header_fault;
use files::limits::Limits;
use files::words::word_at;
use member::record::{MOST_AXLES, Vehicle};
use section::{Cm, Kgf};

// The versions of a vehicle file.
// Stays: equal to the surveys' versions today, and of another file.
const VERSIONS: Limits = Limits { low: 1, high: 2 };

const CLASSES: Limits = Limits { low: 0, high: 1 };

const TRACKS: Limits = Limits {
    low: 100,
    high: 300,
};

// The header's fault, then class or track out of range.
fn vehicle_header(bytes: &[u8], versions: Limits) -> Result<(), Fault>
    ensures { fault_of result ≡ vehicle_header (versions.low ‥ versions.high) bytes.now }
{
    if bytes.len() < HEADER {
        return Err(Fault::Length);
    }
    let size = axle_size(word_at(bytes, 3));
    header_fault(bytes, b'V', versions, HEADER, MOST_AXLES as u32, size)?;
    let class = CLASSES.contains(u32::from(bytes[5]));
    let track = TRACKS.contains(u32::from(word_at(bytes, 6)));
    if !(class & track) {
        return Err(Fault::Range);
    }
    Ok(())
}

// The field is in its range.
fn field_within(axles: Axles<'_>, axle: usize, field: usize) -> bool
    requires { axle < axles.count }
    ensures { result ≡ field_within axles.entry.bytes.now axle field }
{
    axle_limits(axles.version, axle, field).contains(axles.field(axle, field))
}

// The first fault in the order of axles, with its place.
// Stays: an answer beside the loops, which are left by their label: document 01's named form of `first_fault`.
fn first_fault(axles: Axles<'_>) -> Result<(), Refusal>
    ensures { result ≡ first_fault 1 (axle_faults axles.entry.bytes.now axles.entry.count) }
{
    let mut answer = Ok(());
    'axles: for i in 0..axles.count {
        let place = i as u64 + 1;
        for f in 0..AXLE_FIELDS {
            if !field_within(axles, i, f) {
                answer = Err(Fault::Range.at(place));
                break 'axles;
            }
        }
    }
    answer
}

// The file's numbers, each with its unit, and axles of 0 after them.
fn vehicle_of(axles: Axles<'_>) -> Vehicle
    requires { axles.count ≡ axles_of axles.bytes.now }
    ensures { result ≡ vehicle_of axles.entry.bytes.now }
{
    let mut weights = [Kgf(0); MOST_AXLES];
    let mut distances = [Cm(0); MOST_AXLES];
    for i in 0..axles.count {
        weights[i] = Kgf(u64::from(axles.field(i, WEIGHT)));
        distances[i] = Cm(u64::from(axles.field(i, DISTANCE)));
    }
    Vehicle {
        class: axles.bytes[5],
        track: Cm(u64::from(word_at(axles.bytes, 6))),
        axles: axles.count,
        weights,
        distances,
    }
}

// No axles.
pub fn blank_vehicle() -> Vehicle
    ensures { result ≡ blank_vehicle }
{
    Vehicle {
        class: 0,
        track: Cm(0),
        axles: 0,
        weights: [Kgf(0); MOST_AXLES],
        distances: [Cm(0); MOST_AXLES],
    }
}

// A vehicle file of any length, in one of these versions: the vehicle, or the first fault.
pub fn read_vehicle_of(bytes: &[u8], versions: Limits) -> Result<Vehicle, Refusal>
    ensures { result ≡ taken (read_vehicle_of (versions.low ‥ versions.high) bytes.now).answer (read_vehicle_of (versions.low ‥ versions.high) bytes.now).vehicle }
{
    vehicle_header(bytes, versions)?;
    let axles = Axles {
        bytes,
        version: word_at(bytes, 3),
        count: usize::from(bytes[8]),
    };
    first_fault(axles)?;
    Ok(vehicle_of(axles))
}

// A vehicle file of any length, in either version.
pub fn read_vehicle(bytes: &[u8]) -> Result<Vehicle, Refusal>
    ensures { result ≡ taken (read_vehicle bytes.now).answer (read_vehicle bytes.now).vehicle }
{
    read_vehicle_of(bytes, VERSIONS)
}
