// What the writer of PKR messages refuses, each with one fault but for the order.
use crate::{contents, refused};
use std::io;
use transmitter::pkr;
use transmitter::pkr::PkrValues;

// A message of that many bytes of nodes, key and padding.
fn one<R: Print>(rt: &R, name: &str, id: u64, v: PkrValues, lengths: [usize; 3]) -> io::Result<()> {
    refused::one(rt, pkr::write_pkr, name, id, v, lengths)
}

fn values<R: Print>(rt: &R) -> io::Result<()> {
    let mut message = contents::pkr(7, 1);
    message.mid = 16;
    one(rt, "PKR message ID 16", 12, message, [128, 33, 6])?;
    let mut key = contents::pkr(7, 1);
    key.npkid = 16;
    one(rt, "PKR key ID 16", 12, key, [128, 33, 6])?;
    one(rt, "PKR id 11", 11, contents::pkr(7, 1), [128, 33, 6])?;
    one(rt, "PKR id 16", 16, contents::pkr(7, 1), [128, 33, 6])?;
    one(rt, "PKR count 6", 12, contents::pkr(6, 1), [128, 33, 6])?;
    one(rt, "PKR key type 2", 12, contents::pkr(7, 2), [128, 33, 6])?;
    Ok(())
}

fn lengths<R: Print>(rt: &R) -> io::Result<()> {
    let v = contents::pkr(7, 1);
    one(rt, "PKR key of 32 bytes for 33", 12, v, [128, 32, 7])?;
    one(rt, "PKR padding of 5 bytes for 6", 12, v, [128, 33, 5])?;
    let alert = contents::pkr(7, 4);
    one(rt, "PKR alert with padding, full", 12, alert, [128, 33, 6])?;
    Ok(())
}

// The key is a byte short in each; the count is reserved in the first three, the message ID too wide in the first two.
fn order<R: Print>(rt: &R) -> io::Result<()> {
    let mut v = contents::pkr(6, 1);
    v.mid = 16;
    one(
        rt,
        "PKR nodes, message ID, count and key",
        12,
        v,
        [127, 32, 6],
    )?;
    one(rt, "PKR message ID, count and key", 12, v, [128, 32, 6])?;
    one(
        rt,
        "PKR count and key",
        12,
        contents::pkr(6, 1),
        [128, 32, 6],
    )?;
    one(rt, "PKR key", 12, contents::pkr(7, 1), [128, 32, 6])?;
    Ok(())
}

// The raw numbers of a message's first bytes; the key's ID ends with the 130th.
fn numbers<R: Print>(rt: &R, many: usize) -> io::Result<()> {
    refused::numbers(rt, "PKR", many, pkr::pkr_values)
}

pub(crate) fn all<R: Print>(rt: &R) -> io::Result<()> {
    one(rt, "PKR", 12, contents::pkr(7, 1), [128, 33, 6])?;
    refused::lent_207(
        rt,
        pkr::write_pkr,
        "PKR 207 lent bytes",
        12,
        contents::pkr(7, 1),
        [128, 33, 6],
    )?;
    one(
        rt,
        "PKR nodes of 127 bytes",
        12,
        contents::pkr(7, 1),
        [127, 33, 6],
    )?;
    values(rt)?;
    lengths(rt)?;
    order(rt)?;
    numbers(rt, 129)?;
    numbers(rt, 130)?;
    Ok(())
}
