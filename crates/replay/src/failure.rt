// Why the program cannot go on, and what it says of it on standard error.
use std::{fmt, io};

#[derive(Drop)]
pub(crate) enum Failure {
    TooLong,
    Unreadable(io::Error),
    Unwritable(io::Error),
    Endless,
    Stuck,
}

impl fmt::Display for Failure {
    fn fmt<W: fmt::Write>(&self, f: &mut fmt::Formatter<W>) -> fmt::Result {
        match self {
            Failure::TooLong => write!(f, "an argument has more than 131071 bytes"),
            Failure::Unreadable(error) => write!(f, "standard input: {error}"),
            Failure::Unwritable(error) => write!(f, "standard output: {error}"),
            Failure::Endless => write!(f, "standard input does not end"),
            Failure::Stuck => write!(f, "standard input has more than 2^62 pages"),
        }
    }
}

// Where that cannot be written either, nobody is told.
pub(crate) fn say<R: Eprint>(rt: &R, failure: &Failure) {
    let _ = eprintln!(rt; "replay: {failure}");
}
