// The vehicle file: bytes of any length become a vehicle, or the first fault with its number and place. Vehicle files that stand one behind
// the other are a yard.
#![tactic(auto)]

pub mod axle;
pub mod file;
pub mod yard;
