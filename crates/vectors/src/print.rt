// What the program writes.
use crate::found::Found;
use crate::records::Record;
use crate::tally::Tally;
use std::io;

fn answer<R: Print>(rt: &R, refusal: u8, values: [u64; 3]) -> io::Result<()> {
    let [v0, v1, v2] = values;
    print!(rt; " refusal {refusal}, values {v0} {v1} {v2}")
}

// A record that differs, with what it expects and what was found; 255 where no function here answers.
pub(crate) fn difference<R: Print>(
    rt: &R,
    at: u64,
    r: Record,
    found: Option<Found>,
) -> io::Result<()> {
    print!(rt; "record {at}, function {}: expected", r.function)?;
    answer(rt, r.refusal, r.values)?;
    print!(rt; "; found")?;
    let (refusal, values) = found.map_or((255, [0; 3]), |f| f.recorded());
    answer(rt, refusal, values)?;
    if !found.is_some_and(|f| f.fits) {
        print!(rt; "; bytes or name differ")?;
    }
    println!(rt)
}

pub(crate) fn cut<R: Print>(rt: &R, at: u64) -> io::Result<()> {
    println!(rt; "record {at}: the file ends inside it")
}

pub(crate) fn endless<R: Print>(rt: &R) -> io::Result<()> {
    println!(rt; "the file has more than a million records")
}

pub(crate) fn missing<R: Print>(rt: &R, path: &str) -> io::Result<()> {
    println!(rt; "{path}: cannot be opened")
}

pub(crate) fn checksum<R: Print>(rt: &R, path: &str, sum: u64) -> io::Result<()> {
    println!(rt; "checksum of {path}: {sum}")
}

pub(crate) fn summary<R: Print>(rt: &R, t: Tally) -> io::Result<()> {
    println!(rt;
        "recorded answers: {} records ({} values, {} refusals), {} differ",
        t.total(),
        t.good,
        t.refused,
        t.differ
    )?;
    println!(rt; "records of the C boundary only: {}", t.boundary)
}

// A published value that the reader does not give. One line, as `missing` is one, of other words.
pub(crate) fn published<R: Print>(rt: &R, name: &str) -> io::Result<()> {
    println!(rt; "published: {name} differs")
}

pub(crate) fn published_summary<R: Print>(rt: &R, t: Tally) -> io::Result<()> {
    println!(rt;
        "published values, in messages of our own making: {} checks, {} differ",
        t.good, t.differ
    )
}

pub(crate) fn sequences_summary<R: Print>(rt: &R, t: Tally) -> io::Result<()> {
    println!(rt;
        "recorded sequences: {} calls ({} refusals), {} differ",
        t.total(),
        t.refused,
        t.differ
    )
}
