// How the load of a vehicle spreads over closely spaced stringers: the stiffness number of stringers and deck, the shares of neighbouring
// stringers, and β of formula (10).
#![tactic(auto)]

pub mod beta;
pub mod inertia;
mod shares;
pub mod stiffness;
