// The bench transmitter: KROOT and PKR messages written into 208 lent bytes, their raw numbers read back, and the blocks that
// they are sent in.
#![tactic(auto)]

pub mod blocks;
mod fields;
pub mod kroot;
pub mod pkr;
