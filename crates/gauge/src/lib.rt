// Gauges under a test load: three readings in millimetres of a gauge under a member, and whether the elastic deflection is within the limit of
// the member's span.
#![tactic(auto)]

mod limit;
mod reading;

ghost use Rattle.std.specs.Prelude.{◌≡◌};
ghost use Rattle.member.specs.Format.{AllowedMember};
ghost use Rattle.gauge.specs.Gauge.{reading_tests, deflection_of, gauged};
ghost use Rattle.gauge.specs.Fault.{MayBeGauged};

use files::Refusal;
use files::fault::Fault;
use limit::is_within;
use member::record::Member;
use reading::sixty_fourths;

// The readings in millimetres before the load stood on the bridge, under it, and after it left.
#[derive(Clone, Copy)]
pub struct Readings {
    pub empty: f32,
    pub loaded: f32,
    pub after: f32,
}

// The elastic deflection in millimetres, within the limit or over it.
#[derive(Clone, Copy)]
pub enum Deflection {
    Within(f32),
    Over(f32),
}

// The readings in their order, then after against loaded.
fn readings_answer(readings: Readings) -> Result<(), Refusal>
    ensures { result ≡ reading_tests readings }
{
    sixty_fourths(readings.empty).ok_or(Fault::Gauge.at(1))?;
    let loaded = sixty_fourths(readings.loaded).ok_or(Fault::Gauge.at(2))?;
    let after = sixty_fourths(readings.after).ok_or(Fault::Gauge.at(3))?;
    Fault::Gauge.unless(after <= loaded)
}

// The elastic deflection against the limit. The machine's difference of two readings loses nothing, so it has a number of 64ths too.
fn compared(m: Member, class: u8, readings: Readings) -> Deflection
    requires { AllowedMember m × MayBeGauged readings }
    ensures { result ≡ deflection_of m class readings }
{
    let elastic = readings.loaded - readings.after;
    let count = sixty_fourths(elastic).unwrap();
    if is_within(count, m, class) {
        Deflection::Within(elastic)
    } else {
        Deflection::Over(elastic)
    }
}

// The readings of a gauge under a member, the load being a vehicle of this class.
pub fn gauge(m: Member, class: u8, readings: Readings) -> Result<Deflection, Refusal>
    requires { AllowedMember m }
    ensures { result ≡ gauged m class readings }
{
    readings_answer(readings)?;
    Ok(compared(m, class, readings))
}
