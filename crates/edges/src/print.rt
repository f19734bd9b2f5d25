// What the program writes.
use crate::pages::Run;
use layouts::gst::Stamp;
use layouts::refusal::Refusal;
use std::io;
use std::io::Write;
use texts::lines;
use texts::lines::Counted;

// An edge's name, and a line each for the last subframe, the last DSM and the totals, of zeros where there is none; then what no line has.
pub(crate) fn run<R: Print>(rt: &R, name: &str, run: &Run) -> io::Result<()> {
    println!(rt; "{name}")?;
    let record = run.record;
    let next = record.next;
    let mut out = [0u8; 256];
    let (week, time) = run.subframe.map_or((0, 0), |done| (done.week, done.time));
    let subframe = Stamp {
        satellite: next.satellite,
        week,
        time,
    };
    let many = lines::subframe(&mut out, subframe);
    io::writer(rt).write_all(&out[..many])?;
    let (id, bytes) = run.dsm.map_or((0, 0), |done| (done.id, done.bytes));
    let many = lines::dsm(&mut out, id, bytes);
    io::writer(rt).write_all(&out[..many])?;
    let counts = Counted {
        pages: record.pages,
        skipped: record.skipped,
        subframes: record.subframes_done,
        dsms: record.dsms_done,
        silent: record.silent,
        tail: 0,
    };
    let many = lines::totals(&mut out, counts);
    io::writer(rt).write_all(&out[..many])?;
    print!(rt; "used {} unused {} ", record.used, record.unused)?;
    println!(rt; "next {} {} wrong {}", next.week, next.time, run.wrong)
}

// What a call answered: its refusal number, or 0 with how many pages were consumed.
pub(crate) fn call<R: Print>(rt: &R, name: &str, answer: Result<usize, Refusal>) -> io::Result<()> {
    match answer {
        Ok(consumed) => println!(rt; "{name}: refused 0 consumed {consumed}"),
        Err(refusal) => println!(rt; "{name}: refused {} consumed 0", refusal.number()),
    }
}
