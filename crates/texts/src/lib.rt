// Texts of programs: decimal and hexadecimal numbers, arguments, and the lines of a page replay.
#![tactic(auto)]

pub mod arguments;
pub mod hexadecimal;
pub mod lines;
pub mod put;
