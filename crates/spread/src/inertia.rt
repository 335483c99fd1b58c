// Moments of inertia in twelfths of a cm⁴, which make all of them whole numbers.
ghost use Rattle.std.specs.Prelude.{◌≤◌};
ghost use Rattle.section.specs.Fraction.{over, ◌≐◌};
ghost use Rattle.section.specs.Sizes.{LogSizes, SawnSizes};
ghost use Rattle.spread.specs.Inertia.{log_inertia, tiered_inertia, sawn_inertia, deck_inertia};

use section::Cm;
use section::fraction::less;
use section::log::{Log, log_modulus, net_diameter, tiered};
use section::sawn::{Sawn, sawn_modulus_sixths};

// One log: W times half the net diameter.
fn log_inertia(net: Cm) -> u64
    requires { net.0 ≤ 39 }
    ensures is { over result 12 ≐ log_inertia net.0 }
    ensures cap { result ≤ 1362816 }
{
    6 * (log_modulus(net) * net.0)
}

// The top log is decayed, the others sound.
pub fn tiered_inertia(s: Log) -> u64
    requires { LogSizes s }
    ensures is { over result 12 ≐ tiered_inertia s.diameter.0 s.rot.0 s.tiers }
    ensures cap { result ≤ 4088448 }
{
    let top = log_inertia(net_diameter(s.diameter, s.rot));
    tiered(top, log_inertia(s.diameter), s.tiers)
}

// Sawn beams side by side.
pub fn sawn_inertia(s: Sawn) -> u64
    requires { SawnSizes s }
    ensures is { over result 12 ≐ sawn_inertia s.width.0 s.height.0 s.side_rot.0 s.top_rot.0 s.pieces }
    ensures cap { result ≤ 518400000 }
{
    sawn_modulus_sixths(s) * s.net_height()
}

// The boards of a deck: how many, their thickness and width, and the rot of their thickness.
#[derive(Clone, Copy)]
pub struct Deck {
    pub boards: u64,
    pub thickness: Cm,
    pub width: Cm,
    pub rot: Cm,
}

// The boards that are left.
pub fn deck_inertia(s: Deck) -> u64
    requires { (s.boards ≤ 10) × (s.thickness.0 ≤ 20) × (s.width.0 ≤ 60) }
    ensures is { over result 12 ≐ deck_inertia s.boards s.thickness.0 s.width.0 s.rot.0 }
    ensures cap { result ≤ 4800000 }
{
    let net = less(s.thickness.0, s.rot.0);
    s.width.0 * (net * net * net) * s.boards
}
