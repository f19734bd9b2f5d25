// Recordings of good pages, alert pages and a DSM's blocks, and what each comes to.
use crate::pages::stamp;
use crate::{pages, print};
use layouts::gst::Stamp;
use std::io;

// So many good pages with a zero field but for its last byte, so many alert pages, and so many good ones again.
fn alike<R: Print>(rt: &R, name: &str, last: u8, first: Stamp, many: [usize; 3]) -> io::Result<()> {
    let [good, alerts, behind] = many;
    let mut run = pages::start(first);
    run.alike(last, false, good);
    run.alike(last, true, alerts);
    run.alike(last, false, behind);
    print::run(rt, name, &run)
}

// Like `alike`, but the last byte changes, and no page is an alert.
// So many pages with a zero field, so many with a last byte of 1, and so many of zeros again.
fn mixed<R: Print>(rt: &R, name: &str, many: [usize; 3]) -> io::Result<()> {
    let [zeros, ones, behind] = many;
    let mut run = pages::start(stamp(3, 1200, 60));
    run.alike(0, false, zeros);
    run.alike(1, false, ones);
    run.alike(0, false, behind);
    print::run(rt, name, &run)
}

// The blocks of a DSM, from 0 on, each in a subframe; pages with a zero field; then the same blocks again.
fn blocks<R: Print>(
    rt: &R,
    name: &str,
    id: u8,
    count: u8,
    many: u8,
    zeros: usize,
    again: u8,
) -> io::Result<()> {
    let mut run = pages::start(stamp(3, 1200, 60));
    run.blocks(id, count, many);
    run.alike(0, false, zeros);
    run.blocks(id, count, again);
    print::run(rt, name, &run)
}

fn silent<R: Print>(rt: &R) -> io::Result<()> {
    mixed(rt, "document 02", [15, 0, 0])?;
    mixed(rt, "zeros but for the last MACK byte", [14, 1, 0])?;
    mixed(rt, "silent, then not, then silent", [15, 15, 15])?;
    let wrapping = stamp(12, 4095, 604770);
    alike(rt, "silent from 4,095 to 0", 0, wrapping, [30, 0, 0])?;
    let lost = stamp(3, 1200, 60);
    alike(rt, "a silent page lost", 0, lost, [5, 1, 24])
}

// Good pages alone.
fn good<R: Print>(rt: &R, name: &str, first: Stamp, many: usize) -> io::Result<()> {
    alike(rt, name, 1, first, [many, 0, 0])
}

fn wraps<R: Print>(rt: &R) -> io::Result<()> {
    good(rt, "empty", stamp(3, 1200, 60), 0)?;
    let name = "week wraps in the middle";
    good(rt, name, stamp(36, 1200, 604786), 22)?;
    good(rt, "week wraps at a subframe", stamp(1, 1200, 604770), 45)?;
    good(rt, "week wraps on an odd second", stamp(1, 7, 604799), 16)?;
    good(rt, "4,095 to 0", stamp(12, 4095, 604770), 30)
}

fn alerts<R: Print>(rt: &R) -> io::Result<()> {
    let first = stamp(3, 1200, 60);
    alike(rt, "an alert page among good ones", 1, first, [5, 1, 24])?;
    alike(rt, "fifteen alert pages between", 1, first, [15, 15, 15])
}

fn starts<R: Print>(rt: &R) -> io::Result<()> {
    good(rt, "odd start", stamp(3, 1200, 61), 15)?;
    good(rt, "start within a subframe", stamp(3, 1200, 75), 23)?;
    good(rt, "one page too late", stamp(3, 1200, 62), 15)
}

fn dsms<R: Print>(rt: &R) -> io::Result<()> {
    blocks(rt, "a DSM of 7 blocks", 2, 1, 7, 0, 0)?;
    blocks(rt, "a DSM of 16 blocks", 12, 10, 16, 0, 0)?;
    blocks(rt, "a block too few", 2, 1, 6, 0, 0)?;
    blocks(rt, "blocks again after done", 2, 1, 7, 0, 7)?;
    blocks(rt, "blocks again after a silent subframe", 2, 1, 7, 15, 7)?;
    blocks(rt, "a DSM of ID 0 after a silent subframe", 0, 1, 0, 15, 7)?;
    blocks(rt, "a count that never completes", 2, 9, 16, 0, 0)
}

pub(crate) fn all<R: Print>(rt: &R) -> io::Result<()> {
    silent(rt)?;
    wraps(rt)?;
    alerts(rt)?;
    starts(rt)?;
    dsms(rt)?;
    let name = "two hundred thousand pages";
    good(rt, name, stamp(17, 4093, 604001), 200000)
}
