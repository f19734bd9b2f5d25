// The MACK store. It sees only what `layouts` promises.
#![tactic(auto)]

pub mod mack_storage;
mod places;
