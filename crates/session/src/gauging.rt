// Gauges under a test load: the readings of a gauge under one member, with the loaded vehicle as the load.
ghost use Rattle.std.specs.Prelude.{◌≡◌};
ghost use Rattle.session.specs.Answers.{gauge_read, gauge_answer};
ghost use Rattle.session.specs.Gauging.{gauge};

use crate::{After, Session, member_at};
use files::Refusal;
use gauge::{Deflection, Readings};

impl Session {
    // The elastic deflection of the member at a place, within its limit or over it.
    pub fn gauge(self, place: u64, readings: Readings) -> After<Deflection>
        ensures { gauge_read result ≡ gauge self place readings }
    {
        After {
            session: self,
            answer: gauge_loaded(&self, place, readings),
        }
    }
}

fn gauge_loaded(session: &Session, place: u64, readings: Readings) -> Result<Deflection, Refusal>
    ensures { gauge_answer result ≡ (gauge session.now place readings).answer }
{
    let m = member_at(session, place)?;
    gauge::gauge(m, session.vehicle.class, readings)
}
