// Values that the annex of the OSNMA Receiver Guidelines v1.3 publishes, as the test suite of gnss-sdr 0.0.20 cites them, set into
// messages of our own making: no whole message was at hand. What is ours in each is said in its file.
use crate::tally::Tally;
use crate::{print, published_kroot, published_mack, published_pkr, published_slots, tally};
use layouts::refusal::Refusal;
use std::io;
use texts::hexadecimal;

// One check more, with a line where it fails.
pub(crate) fn held<R: Print>(rt: &R, name: &str, fits: bool, t: Tally) -> io::Result<Tally> {
    let t = t.record(false);
    if fits {
        return Ok(t);
    }
    print::published(rt, name)?;
    Ok(t.difference())
}

pub(crate) fn number<R: Print>(
    rt: &R,
    name: &str,
    answer: Result<u64, Refusal>,
    expected: u64,
    t: Tally,
) -> io::Result<Tally> {
    held(rt, name, answer == Ok(expected), t)
}

pub(crate) fn bytes<R: Print>(
    rt: &R,
    name: &str,
    answer: &[u8],
    text: &[u8],
    t: Tally,
) -> io::Result<Tally> {
    held(rt, name, hexadecimal::spells(text, answer), t)
}

pub(crate) fn all<R: Print>(rt: &R) -> io::Result<Tally> {
    let t = published_pkr::checks(rt, tally::none())?;
    let t = published_kroot::checks(rt, t)?;
    let t = published_mack::checks(rt, t)?;
    published_slots::checks(rt, t)
}
