// What the program writes.
use crate::contents;
use dsms::dsm::CompleteDsm;
use layouts::refusal::Refusal;
use std::io;

pub(crate) fn held<R: Print>(rt: &R, ok: bool, words: &str, otherwise: &str) -> io::Result<()> {
    print!(rt; "{}", if ok { words } else { otherwise })
}

// What the writer answered.
pub(crate) fn wrote<R: Print>(rt: &R, answer: Result<CompleteDsm, Refusal>) -> io::Result<()> {
    match answer {
        Err(e) => print!(rt; ": refused {}", e.number()),
        Ok(CompleteDsm { bytes, .. }) => {
            print!(rt; ": wrote {bytes} bytes, {} blocks", bytes / 13)
        }
    }
}

// How many fields, raw numbers and parts were read as they were given.
pub(crate) fn read<R: Print>(
    rt: &R,
    fields: usize,
    numbers: usize,
    parts: usize,
) -> io::Result<()> {
    print!(rt; ", read {fields} fields {numbers} numbers {parts} parts")
}

// Whether the lent bytes from there on are as they were before anything was written.
fn is_kept(lent: &[u8], from: usize) -> bool {
    let rest = contents::behind(lent, from);
    let before = contents::BEFORE;
    check::same(rest, contents::first(&before, rest.len()))
}

// Whether the collector shows what was written, whether writing what was read makes the same, and the lent bytes behind.
pub(crate) fn end<R: Print>(
    rt: &R,
    shown: &[u8],
    is_again: bool,
    sent: &[u8],
    many: usize,
) -> io::Result<()> {
    let is_same = check::same(shown, contents::first(sent, many));
    held(rt, is_same, ", same bytes", ", other bytes")?;
    held(rt, is_again, ", same again, ", ", other again, ")?;
    let rest = contents::behind(sent, many);
    print!(rt; "{}", rest.len())?;
    held(
        rt,
        is_kept(sent, many),
        " behind kept\n",
        " behind changed\n",
    )?;
    Ok(())
}

// A name, what the writer answered, and whether the lent bytes are as they were.
pub(crate) fn refused<R: Print>(
    rt: &R,
    name: &str,
    answer: Result<CompleteDsm, Refusal>,
    lent: &[u8],
) -> io::Result<()> {
    print!(rt; "{name}")?;
    wrote(rt, answer)?;
    held(rt, is_kept(lent, 0), ", nothing changed\n", ", changed\n")?;
    Ok(())
}
