// A subframe from its pages, one by one and from a trace. It sees only what `layouts` promises.
#![tactic(auto)]

mod page;
pub mod subframe;
pub mod trace;
