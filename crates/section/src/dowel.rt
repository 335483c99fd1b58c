// What one cut of a dowel carries, in hundredths of a kgf, by the terms of table 4.
ghost use Rattle.std.specs.Prelude.{◌≡◌, ◌*◌, ◌≤◌};
ghost use Rattle.section.specs.Fraction.{over, whole, tenths, ◌≐◌};
ghost use Rattle.section.specs.Dowel.{least_term, dowel_capacity};
ghost use Rattle.section.specs.Material.{material_term, material_of};

use crate::fraction::less;
use crate::{CentiKgf, Cm, Mm};

// A line of table 4: the coefficients of the terms pcδ, qaδ, rδ² + sa² and tδ².
#[derive(Clone, Copy)]
struct Line {
    p: u64,
    q: u64,
    r: u64,
    s: u64,
    t: u64,
    ghost small: { (p ≤ 70) × (q ≤ 70) × (r ≤ 370) × (s ≤ 7) × (t ≤ 370) },
}

// What a dowel is made of: the table's lines.
#[derive(Clone, Copy)]
enum Material {
    Steel,
    Nail,
    Oak,
}

impl Material {
    fn line(self) -> Line
        ensures { least_term result.p result.q result.r result.s result.t ≡ material_term self }
    {
        let (p, q, r, s, t) = match self {
            Material::Steel => (45, 70, 165, 2, 230),
            Material::Nail => (45, 70, 230, 1, 370),
            Material::Oak => (25, 45, 40, 2, 60),
        };
        Line { p, q, r, s, t }
    }
}

// A joint's number of its type: 1 steel, 2 nail, 3 oak.
impl From<u64> for Material {
    ghost from_gives = { λ code material. material ≡ material_of code };

    fn from(code: u64) -> Self {
        match code {
            1 => Material::Steel,
            2 => Material::Nail,
            _ => Material::Oak,
        }
    }
}

// The least of pcδ, qaδ, rδ² + sa² and tδ², times 100, with the diameter d in mm.
fn least_term(k: Line, c: u64, a: u64, d: u64) -> CentiKgf
    requires { (c ≤ 60) × (a ≤ 60) × (d ≤ 60) }
    ensures is { over result.0 100 ≐ least_term k.p k.q k.r k.s k.t (whole c) (whole a) (tenths d) }
    ensures cap { result.0 ≤ 1332000 }
{
    let middle = 10 * k.p * (c * d);
    let outer = 10 * k.q * (a * d);
    let bent = k.r * (d * d) + 100 * k.s * (a * a);
    let stiff = k.t * (d * d);
    CentiKgf(middle.min(outer.min(bent.min(stiff))))
}

// A dowelled joint: the dowels' type (1 steel, 2 nail, 3 oak) and diameter, the thickness of the middle and of the outer pieces,
// their rot, and how many cuts the dowels have.
// Stays: the type is a number, since `dowel_capacity` is public and promises its answer of every number (`material_of`).
#[derive(Clone, Copy)]
pub struct Dowels {
    pub material: u64,
    pub diameter: Mm,
    pub middle: Cm,
    pub outer: Cm,
    pub rot: Cm,
    pub cuts: u64,
}

// T, what one cut carries.
pub fn dowel_capacity(s: Dowels) -> CentiKgf
    requires { (s.diameter.0 ≤ 60) × (s.middle.0 ≤ 60) × (s.outer.0 ≤ 60) }
    ensures is { over result.0 100 ≐ dowel_capacity s.material s.diameter.0 s.middle.0 s.outer.0 s.rot.0 }
    ensures cap { result.0 ≤ 1332000 }
{
    let line = Material::from(s.material).line();
    let c = less(s.middle.0, s.rot.0);
    let a = less(s.outer.0, s.rot.0);
    least_term(line, c, a, s.diameter.0)
}
