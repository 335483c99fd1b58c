// Section modulus and area of sawn beams, and a given area less what is lost.
ghost use Rattle.std.specs.Prelude.{◌≡◌, ◌-◌, ◌≤◌};
ghost use Rattle.section.specs.Fraction.{over, ◌≐◌};
ghost use Rattle.section.specs.Sawn.{sawn_modulus, sawn_area, area_left};
ghost use Rattle.section.specs.Sizes.{SawnSizes};

use crate::Cm;
use crate::fraction::less;

// Sawn beams side by side: width and height of a piece, its rot from the side and from the top, how many pieces, and the area lost of
// all of them in cm².
#[derive(Clone, Copy)]
pub struct Sawn {
    pub width: Cm,
    pub height: Cm,
    pub side_rot: Cm,
    pub top_rot: Cm,
    pub pieces: u64,
    pub lost: u64,
}

impl Sawn {
    // b
    fn net_width(self) -> u64
        ensures { result ≡ self.width.0 - self.side_rot.0 }
    {
        less(self.width.0, self.side_rot.0)
    }

    // h
    pub fn net_height(self) -> u64
        ensures { result ≡ self.height.0 - self.top_rot.0 }
    {
        less(self.height.0, self.top_rot.0)
    }
}

// The section modulus in sixths of a cm³: pieces × b × h².
pub fn sawn_modulus_sixths(s: Sawn) -> u64
    requires { SawnSizes s }
    ensures is { over result 6 ≐ sawn_modulus s.width.0 s.height.0 s.side_rot.0 s.top_rot.0 s.pieces }
    ensures cap { result ≤ 8640000 }
{
    let h = s.net_height();
    s.pieces * s.net_width() * (h * h)
}

// The area in cm².
pub fn sawn_area(s: Sawn) -> u64
    requires { SawnSizes s }
    ensures is { result ≡ sawn_area s.width.0 s.height.0 s.side_rot.0 s.top_rot.0 s.pieces s.lost }
    ensures cap { result ≤ 144000 }
{
    area_left(s.pieces * s.net_width() * s.net_height(), s.lost)
}

pub fn area_left(area: u64, lost: u64) -> u64
    ensures is { result ≡ area_left area lost }
    ensures cap { result ≤ area }
{
    less(area, lost)
}
