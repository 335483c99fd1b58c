// The load that a vehicle's axles put on a member, over the member's influence line.
ghost use Rattle.std.specs.Prelude.{◌≡◌, ◌*◌, ◌≤◌};
ghost use Rattle.section.specs.Units.{FitsSigned};
ghost use Rattle.member.specs.Format.{AllowedMember, AllowedVehicle};
ghost use Rattle.rating.specs.VehicleLoad.{influence_line, vehicle_load_on};

use influence::axles::Axles;
use influence::{HalfCm, Line, half_cm, half_of, vehicle_load};
use member::kind::Kind;
use member::record::{Member, Vehicle};
use section::{Cm, KgfPerM};

// The two panels beside a cross beam; a panel is at most 1000 cm long.
fn two_panels(x: Cm) -> Cm
    requires { x.0 ≤ 1000 }
    ensures { result.0 ≡ 2 * x.0 }
{
    Cm(2 * x.0)
}

// The base: two panels for a cross beam, else the span.
fn base_of(m: Member) -> HalfCm
    requires { AllowedMember m }
    ensures { result.0 ≡ (influence_line m).base }
{
    match m.kind() {
        Kind::CrossBeam => half_cm(two_panels(m.distance())),
        _ => half_cm(m.span()),
    }
}

// The apex: the middle of a stringer, closely spaced or not, else at x.
fn apex_of(m: Member) -> HalfCm
    requires { AllowedMember m }
    ensures { result.0 ≡ (influence_line m).apex }
{
    match m.kind() {
        Kind::Stringer | Kind::CloseStringer => half_of(m.span()),
        _ => half_cm(m.distance()),
    }
}

// The vehicle load on a member: the greatest that any position gives, rounded up once.
pub fn vehicle_load_on(m: Member, v: Vehicle) -> KgfPerM
    requires { AllowedMember m × AllowedVehicle v }
    ensures is { result.0 ≡ vehicle_load_on m v }
    ensures cap { FitsSigned result.0 }
{
    let line = Line {
        base: base_of(m),
        apex: apex_of(m),
    };
    let axles = Axles {
        weights: &v.weights[..v.axles],
        distances: &v.distances[..v.axles],
    };
    vehicle_load(line, axles)
}
