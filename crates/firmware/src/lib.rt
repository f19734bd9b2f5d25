// The readers and the look-up table for C. include/osnma.h declares these functions and is their manual.
// Each returns the refusal number, 0 for none, and writes its results only then. Every number comes in as a u64.
// They stand one by one, alike as many are: each is a name for C, with a promise of its own.
#![tactic(auto)]

mod bits;
mod header;
mod kroot;
mod mack;
mod maclt;
mod pkr;
mod tell;
