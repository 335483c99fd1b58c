// A member's record and what it may carry; a survey and a vehicle as their files hold them.
#![tactic(auto)]

pub mod blank;
mod formula;
pub mod kind;
pub mod permitted;
pub mod record;
pub mod wear;
