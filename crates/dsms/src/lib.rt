// A DSM from its blocks, and the two forms over a reference. It sees only what `layouts` promises.
#![tactic(auto)]

pub mod dsm;
pub mod dsm_in_place;
pub mod dsm_view;
