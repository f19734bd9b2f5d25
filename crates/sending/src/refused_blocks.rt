// What is refused of a message's blocks.
use crate::{contents, kroot, print};
use std::io;
use transmitter::blocks;

// The block's header byte, or the refusal, beside which the bytes are zeros; then what the bytes are.
fn one<R: Print>(
    rt: &R,
    name: &str,
    dsm: &[u8],
    id: u64,
    n: u64,
    expected: &[u8],
    words: &str,
) -> io::Result<()> {
    match blocks::block(dsm, id, n) {
        Err(e) => println!(rt; "{name}: refused {}, zeros", e.number()),
        Ok(cut) => {
            let bytes = cut.bytes;
            print!(rt; "{name}: header {}", cut.header)?;
            print::held(rt, check::same(&bytes, expected), words, ", other bytes\n")
        }
    }
}

fn refused<R: Print>(rt: &R, name: &str, dsm: &[u8], id: u64, n: u64) -> io::Result<()> {
    one(rt, name, dsm, id, n, &[], "")
}

// Count 2, which is 8 blocks, is no count of a PKR message.
fn each<R: Print>(rt: &R, dsm: &[u8]) -> io::Result<()> {
    let last = contents::first(contents::behind(dsm, 91), 13);
    one(
        rt,
        "block 7 of id 4",
        dsm,
        4,
        7,
        last,
        ", bytes 91 to 103\n",
    )?;
    let short = contents::first(dsm, 207);
    refused(rt, "block 16 of id 16 in 207 bytes", short, 16, 16)?;
    refused(rt, "block 7 of id 16", dsm, 16, 7)?;
    refused(rt, "block 16 of id 12", dsm, 12, 16)?;
    refused(rt, "block 15 of id 12", dsm, 12, 15)?;
    refused(rt, "block 8 of id 4", dsm, 4, 8)?;
    Ok(())
}

pub(crate) fn all<R: Print>(rt: &R) -> io::Result<()> {
    let mut before = contents::BEFORE;
    let dsm: &mut [u8] = &mut before;
    let _ = kroot::recorded(dsm, 4);
    each(rt, dsm)
}
