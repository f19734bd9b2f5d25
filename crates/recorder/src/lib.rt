// Which tag of a MACK message breaks its slot, and which speak for the timing data, from which the leap second count is taken.
#![tactic(auto)]

pub mod slots;
pub mod timing;
pub mod walk;
