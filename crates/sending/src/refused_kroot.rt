// What the writer of KROOT messages refuses, each with one fault but for the order.
use crate::{contents, refused};
use std::io;
use transmitter::kroot;
use transmitter::kroot::KrootValues;

// A message of that many bytes of key, signature and padding.
fn one<R: Print>(
    rt: &R,
    name: &str,
    id: u64,
    v: KrootValues,
    lengths: [usize; 3],
) -> io::Result<()> {
    refused::one(rt, kroot::write_kroot, name, id, v, lengths)
}

fn values<R: Print>(rt: &R) -> io::Result<()> {
    let mut week = contents::kroot(2, 4);
    week.wn_k = 4096;
    one(rt, "KROOT week 4096", 4, week, [16, 64, 11])?;
    let mut hash = contents::kroot(2, 4);
    hash.hf = 4;
    one(rt, "KROOT hash function 4", 4, hash, [16, 64, 11])?;
    one(rt, "KROOT id 12", 12, contents::kroot(2, 4), [16, 64, 11])?;
    one(rt, "KROOT count 9", 4, contents::kroot(9, 4), [16, 64, 11])?;
    one(
        rt,
        "KROOT key size 9",
        4,
        contents::kroot(2, 9),
        [16, 64, 11],
    )?;
    let mut tags = contents::kroot(2, 4);
    tags.ts = 4;
    one(rt, "KROOT tag size 4", 4, tags, [16, 64, 11])?;
    Ok(())
}

fn lengths<R: Print>(rt: &R) -> io::Result<()> {
    let v = contents::kroot(2, 4);
    one(rt, "KROOT key of 15 bytes for 16", 4, v, [15, 64, 12])?;
    one(rt, "KROOT padding of 10 bytes for 11", 4, v, [16, 64, 10])?;
    let short_key = contents::kroot(2, 2);
    one(
        rt,
        "KROOT padding of 13 bytes, full",
        4,
        short_key,
        [14, 64, 13],
    )?;
    Ok(())
}

// The key is a byte short in each; the count is reserved in the first three, the week too wide in the first two.
fn order<R: Print>(rt: &R) -> io::Result<()> {
    let mut v = contents::kroot(9, 4);
    v.wn_k = 4096;
    one(
        rt,
        "KROOT signature, week, count and key",
        4,
        v,
        [15, 65, 11],
    )?;
    one(rt, "KROOT week, count and key", 4, v, [15, 64, 11])?;
    one(
        rt,
        "KROOT count and key",
        4,
        contents::kroot(9, 4),
        [15, 64, 11],
    )?;
    one(rt, "KROOT key", 4, contents::kroot(2, 4), [15, 64, 11])?;
    Ok(())
}

// The raw numbers of a message's first bytes; alpha ends with the 13th.
fn numbers<R: Print>(rt: &R, many: usize) -> io::Result<()> {
    refused::numbers(rt, "KROOT", many, kroot::kroot_values)
}

pub(crate) fn all<R: Print>(rt: &R) -> io::Result<()> {
    one(rt, "KROOT", 4, contents::kroot(2, 4), [16, 64, 11])?;
    refused::lent_207(
        rt,
        kroot::write_kroot,
        "KROOT 207 lent bytes",
        4,
        contents::kroot(2, 4),
        [16, 64, 11],
    )?;
    one(
        rt,
        "KROOT signature of 65 bytes",
        4,
        contents::kroot(2, 4),
        [16, 65, 10],
    )?;
    values(rt)?;
    lengths(rt)?;
    order(rt)?;
    numbers(rt, 12)?;
    numbers(rt, 13)?;
    Ok(())
}
