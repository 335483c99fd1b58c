// A row of axles.
ghost use Rattle.std.specs.Prelude.{◌≡◌, length};

use section::{Cm, Kgf};

// From the front one on: what each weighs, and how far it stands behind the one in front.
#[derive(Clone, Copy)]
pub struct Axles<'a> {
    pub weights: &'a [Kgf],
    pub distances: &'a [Cm],
    ghost paired: { length weights.now ≡ length distances.now },
}
