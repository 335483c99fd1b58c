// Units, fractions, species factors and net sections: what a rating is computed from.
#![tactic(auto)]

pub mod crescent;
pub mod dowel;
pub mod fraction;
pub mod log;
pub mod sawn;
pub mod species;

// Lengths are whole centimetres, axle weights whole kgf, loads per metre whole kgf/m. A load per metre is never added
// to an axle load: each unit is a type of its own.
#[derive(Clone, Copy, Debug, PartialEq, Eq, PartialOrd, Ord)]
pub struct Cm(pub u64);

#[derive(Clone, Copy, Debug, PartialEq, Eq, PartialOrd, Ord)]
pub struct Kgf(pub u64);

#[derive(Clone, Copy, Debug, PartialEq, Eq, PartialOrd, Ord)]
pub struct KgfPerM(pub u64);

// Millimetres: a dowel's diameter, and the span that a deflection is held against.
#[derive(Clone, Copy, Debug, PartialEq, Eq, PartialOrd, Ord)]
pub struct Mm(pub u64);

// A force that is not rounded to whole kgf: hundredths of a kgf.
#[derive(Clone, Copy, Debug, PartialEq, Eq, PartialOrd, Ord)]
pub struct CentiKgf(pub u64);
