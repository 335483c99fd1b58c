// What wears in a section, by its code.
// Stays: the code is a plain number, since `is_rot` and `is_loss` promise their answer of every u16.
ghost use Rattle.std.specs.Prelude.{◌≡◌};
ghost use Rattle.member.specs.Format.{holds};
ghost use Rattle.member.specs.Wear.{rot_fields, lost_fields};

use crate::record::{S2, S3, S4, S5, S6};

// "Rot is s2 of code 1, s3 and s4 of code 2, s5 of code 3", and the depth of code 5.
#[tactic(auto, unfolding(crate::specs::Wear::rot_fields))]
pub fn is_rot(code: u16, f: usize) -> bool
    ensures { result ≡ holds f (rot_fields code) }
{
    matches!((code, f), (1 | 5, S2) | (2, S3 | S4) | (3, S5))
}

// "lost area is s6 of code 2, s2 of code 4"
#[tactic(auto, unfolding(crate::specs::Wear::lost_fields))]
pub fn is_loss(code: u16, f: usize) -> bool
    ensures { result ≡ holds f (lost_fields code) }
{
    matches!((code, f), (2, S6) | (4, S2))
}
