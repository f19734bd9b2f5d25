// The listing of a page replay, put together in pieces: all that `./replay` prints.
#![tactic(auto)]

pub mod pieces;
mod put;
