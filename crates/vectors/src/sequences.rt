// The recorded sequences of calls to the collectors and the MACK store, call by call.
use crate::sequence_calls::Held;
use crate::tally::Tally;
use crate::{records, replayed};
use std::fs::Files;
use std::io;

// `body` starts with the record's message and output.
pub(crate) fn all<R: Print + Files>(rt: &R, path: &str) -> io::Result<Tally> {
    let mut held = Held::new();
    replayed::all(
        rt,
        path,
        |_| false,
        |r| r,
        |r, body| held.answer(records::split(r, body)?),
    )
}
