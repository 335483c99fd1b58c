// Lorry and trailer coupled: two vehicle files and the gap between them become the loaded vehicle.
ghost use Rattle.std.specs.Prelude.{◌≡◌};
ghost use Rattle.session.specs.Answers.{loaded};
ghost use Rattle.session.specs.Coupling.{couple};

use crate::{After, Session, store_vehicle};
use couple::couple;
use section::Cm;

impl Session {
    // Load two vehicles as one, the second's axles behind the first's.
    pub fn couple(self, first: &[u8], second: &[u8], gap: Cm) -> After<()>
        ensures { loaded result ≡ couple self first.now second.now gap.0 }
    {
        store_vehicle(self, couple(first, second, gap))
    }
}
