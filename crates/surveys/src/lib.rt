// The survey file: bytes of any length become a survey, or the first fault with its number and place.
#![tactic(auto)]

mod fault;
pub mod file;
mod ranges;
mod sequence;
