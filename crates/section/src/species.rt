// The factors of table 2 by species code, in tenths.
ghost use Rattle.std.specs.Prelude.{◌≡◌, ◌≤◌};
ghost use Rattle.section.specs.Species.{bending_tenths, shear_tenths};

// A species' factors, in tenths: K for bending and tension, S for shear.
#[derive(Clone, Copy)]
struct Factors {
    k: u64,
    s: u64,
}

// Stays: one `match` from a code to its two numbers is request 4's (docs/changes/04); an enum of species would list the eight twice.
// Pine, the wood of table 1, then table 2 line by line. A code past the last line has no factors: 0, as in the definition.
fn species_factors(species: usize) -> Factors
    requires { 1 ≤ species }
    ensures { (result.k ≡ bending_tenths species) × (result.s ≡ shear_tenths species) }
{
    match species {
        1 => Factors { k: 10, s: 10 }, // pine
        2 => Factors { k: 10, s: 10 }, // spruce
        3 => Factors { k: 12, s: 10 }, // larch
        4 => Factors { k: 9, s: 9 }, // cedar
        5 => Factors { k: 8, s: 8 }, // fir
        6 => Factors { k: 13, s: 13 }, // oak
        7 => Factors { k: 13, s: 16 }, // ash, maple or hornbeam
        8 => Factors { k: 11, s: 13 }, // beech
        _ => Factors { k: 0, s: 0 },
    }
}

// Stays: two functions over one table, since each promises a definition of its own, and an edit of each is kept.
// The factor K, for bending and tension.
pub fn bending_factor(species: usize) -> u64
    requires { (1 ≤ species) × (species ≤ 8) }
    ensures { result ≡ bending_tenths species }
{
    species_factors(species).k
}

// The factor S, for shear.
pub fn shear_factor(species: usize) -> u64
    requires { (1 ≤ species) × (species ≤ 8) }
    ensures { result ≡ shear_tenths species }
{
    species_factors(species).s
}
