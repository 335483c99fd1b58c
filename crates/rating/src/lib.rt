// Rating and judging: what the vehicle puts on each member, against what it may carry, and whether the bridge may be crossed.
#![tactic(auto)]

pub mod judging;
mod vehicle;
