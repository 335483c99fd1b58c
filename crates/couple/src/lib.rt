// Lorry and trailer coupled: two vehicle files become one vehicle, the second's axles behind the first's.
#![tactic(auto)]

ghost use Rattle.std.specs.Prelude.{◌≡◌, ◌+◌, ◌≤◌};
ghost use Rattle.member.specs.Fields.{MOST_AXLES};
ghost use Rattle.files.specs.Reading.{taken};
ghost use Rattle.vehicles.specs.Padded.{Padded};
ghost use Rattle.couple.specs.Couple.{may_follow, distance_behind, coupled_vehicle, couple};

use files::Refusal;
use files::answer::or_else;
use files::fault::Fault;
use member::record::{MOST_AXLES, Vehicle};
use section::Cm;
use vehicles::file::read_vehicle;

// The greatest gap, in centimetres.
const MOST_GAP: u64 = 2000;

// Class and track are the same, and the gap is in its range.
fn may_follow(first: Vehicle, second: Vehicle, gap: Cm) -> bool
    ensures { result ≡ may_follow first second gap.0 }
{
    let alike = first.class == second.class && first.track == second.track;
    alike && (1..=MOST_GAP).contains(&gap.0)
}

// How far the second's axle of this index stands behind the axle in front. In its own file the first has none in front, so it stands the gap behind.
fn distance_behind(own: Cm, gap: Cm, axle: usize) -> Cm
    ensures { result.0 ≡ distance_behind own.0 gap.0 axle }
{
    if axle == 0 { gap } else { own }
}

// The first's axles, then the second's.
fn coupled(first: Vehicle, second: Vehicle, gap: Cm) -> Vehicle
    requires { Padded first × (first.axles + second.axles ≤ MOST_AXLES) }
    ensures { result ≡ coupled_vehicle first second gap.0 }
{
    let mut weights = first.weights;
    let mut distances = first.distances;
    for i in 0..second.axles {
        weights[first.axles + i] = second.weights[i];
        distances[first.axles + i] = distance_behind(second.distances[i], gap, i);
    }
    Vehicle {
        class: first.class,
        track: first.track,
        axles: first.axles + second.axles,
        weights,
        distances,
    }
}

// Two vehicle files of any length, in either version: the coupled vehicle, or the first refusal.
pub fn couple(first: &[u8], second: &[u8], gap: Cm) -> Result<Vehicle, Refusal>
    ensures { result ≡ taken (couple first.now second.now gap.0).answer (couple first.now second.now gap.0).vehicle }
{
    let lorry = read_vehicle(first)?;
    let trailer = read_vehicle(second)?;
    let alike = may_follow(lorry, trailer, gap);
    let few = lorry.axles + trailer.axles <= MOST_AXLES;
    or_else(Fault::Range.unless(alike), Fault::Count.unless(few))?;
    Ok(coupled(lorry, trailer, gap))
}
