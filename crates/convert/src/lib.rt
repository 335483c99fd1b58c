// The converter: a vehicle file of one version becomes that of the other, with every number kept.
#![tactic(auto)]

mod bytes;

ghost use Rattle.std.specs.Prelude.{◌≡◌, ◌≤◌, length};
ghost use Rattle.member.specs.Fields.{MOST_AXLES};
ghost use Rattle.files.specs.Reading.{taken};
ghost use Rattle.files.specs.Writing.{written_answer};
ghost use Rattle.vehicles.specs.VehicleFile.{read_vehicle_of};
ghost use Rattle.convert.specs.Convert.{only, wanted_version, given_version, weight_fits, heavy_answer, converted, converted_out};

use bytes::vehicle_bytes;
use files::Refusal;
use files::fault::Fault;
use files::limits::Limits;
use member::record::Vehicle;
use section::Kgf;
use vehicles::axle::{HEADER, axle_size};
use vehicles::file::read_vehicle_of;

// The version that is wanted; the file has the other one.
#[derive(Clone, Copy)]
pub enum Wanted {
    Version1,
    Version2,
}

// Stays: two tables, since a discriminant can give one of the two versions and not the other too.
fn wanted_version(wanted: Wanted) -> u16
    ensures { result ≡ wanted_version wanted }
{
    match wanted {
        Wanted::Version1 => 1,
        Wanted::Version2 => 2,
    }
}

fn given_version(wanted: Wanted) -> u16
    ensures { result ≡ given_version wanted }
{
    match wanted {
        Wanted::Version1 => 2,
        Wanted::Version2 => 1,
    }
}

// A file of the version that is not wanted.
fn read_given(file: &[u8], wanted: Wanted) -> Result<Vehicle, Refusal>
    ensures { result ≡ taken (read_vehicle_of (only (given_version wanted)) file.now).answer (read_vehicle_of (only (given_version wanted)) file.now).vehicle }
{
    let version = u32::from(given_version(wanted));
    let versions = Limits {
        low: version,
        high: version,
    };
    read_vehicle_of(file, versions)
}

// Going back a weight is at most 60,000.
fn weight_fits(wanted: Wanted, weight: Kgf) -> bool
    ensures { result ≡ weight_fits wanted weight.0 }
{
    match wanted {
        Wanted::Version1 => weight <= Kgf(60000),
        Wanted::Version2 => true,
    }
}

// The first axle whose weight does not fit.
fn heavy_answer(v: Vehicle, wanted: Wanted) -> Result<(), Refusal>
    requires { v.axles ≤ MOST_AXLES }
    ensures { result ≡ heavy_answer wanted v }
{
    for i in 0..v.axles {
        if !weight_fits(wanted, v.weights[i]) {
            return Err(Fault::Weight.at(i as u64 + 1));
        }
    }
    Ok(())
}

// A vehicle file of any length into the output, in the version that is wanted. Nothing is written before the last test.
pub fn convert(file: &[u8], wanted: Wanted, out: &mut [u8]) -> Result<u64, Refusal>
    ensures is { written_answer result ≡ converted wanted file.now (length out.old) }
    ensures out { out.new ≡ converted_out wanted file.now out.old }
{
    let v = read_given(file, wanted)?;
    heavy_answer(v, wanted)?;
    let version = wanted_version(wanted);
    let length = HEADER + axle_size(version) * v.axles;
    Fault::NoRoom.unless(length <= out.len())?;
    let bytes = vehicle_bytes(v, version);
    out[..length].copy_from_slice(&bytes[..length]);
    Ok(length as u64)
}
