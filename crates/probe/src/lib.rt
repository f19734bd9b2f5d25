// The collectors, the recorder and the writers for tests and measurements in other languages: records go by value, an answer is four numbers.
#![tactic(auto)]

mod dsm;
mod store;
mod subframe;
mod tell;
mod walks;
mod writers;
