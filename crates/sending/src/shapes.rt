// Every shape that a message can have, one line each: the padding is what is left of the last block.
use crate::{contents, kroot, pkr};
use std::io;

// A line of each kind: the two have other parts, and are handed to other functions.
fn one_kroot<R: Print>(
    rt: &R,
    id: u64,
    nb_dk: u64,
    ks: u64,
    key: usize,
    signature: usize,
    padding: usize,
) -> io::Result<()> {
    print!(rt; "KROOT id {id} key {key} signature {signature} padding {padding}")?;
    let keys = contents::rising(1);
    let signatures = contents::rising(51);
    let paddings = contents::rising(201);
    kroot::sent(
        rt,
        id,
        contents::kroot(nb_dk, ks),
        contents::first(&keys, key),
        contents::first(&signatures, signature),
        contents::first(&paddings, padding),
    )?;
    Ok(())
}

fn one_pkr<R: Print>(
    rt: &R,
    id: u64,
    nb_dp: u64,
    npkt: u64,
    key: usize,
    padding: usize,
) -> io::Result<()> {
    print!(rt; "PKR id {id} type {npkt} key {key} padding {padding}")?;
    let nodes = contents::rising(101);
    let keys = contents::rising(1);
    let paddings = contents::rising(201);
    let mut lent = [0u8; 208];
    pkr::sent(
        rt,
        &mut lent,
        id,
        contents::pkr(nb_dp, npkt),
        contents::first(&nodes, 128),
        contents::first(&keys, key),
        contents::first(&paddings, padding),
    )?;
    Ok(())
}

// ID, NB_DK, KS, and the lengths of key, signature and padding.
pub(crate) fn kroots<R: Print>(rt: &R) -> io::Result<()> {
    one_kroot(rt, 0, 1, 0, 12, 64, 2)?;
    one_kroot(rt, 1, 1, 1, 13, 64, 1)?;
    one_kroot(rt, 2, 1, 2, 14, 64, 0)?;
    one_kroot(rt, 3, 2, 3, 15, 64, 12)?;
    one_kroot(rt, 4, 2, 4, 16, 64, 11)?;
    one_kroot(rt, 5, 2, 5, 20, 64, 7)?;
    one_kroot(rt, 6, 2, 6, 24, 64, 3)?;
    one_kroot(rt, 7, 3, 7, 28, 64, 12)?;
    one_kroot(rt, 8, 3, 8, 32, 64, 8)?;
    one_kroot(rt, 9, 7, 0, 12, 132, 12)?;
    one_kroot(rt, 10, 7, 1, 13, 132, 11)?;
    one_kroot(rt, 11, 7, 2, 14, 132, 10)?;
    one_kroot(rt, 0, 7, 3, 15, 132, 9)?;
    one_kroot(rt, 1, 7, 4, 16, 132, 8)?;
    one_kroot(rt, 2, 7, 5, 20, 132, 4)?;
    one_kroot(rt, 3, 7, 6, 24, 132, 0)?;
    one_kroot(rt, 4, 8, 7, 28, 132, 9)?;
    one_kroot(rt, 5, 8, 8, 32, 132, 5)?;
    Ok(())
}

// ID, NB_DP, NPKT, and the lengths of key and padding.
pub(crate) fn pkrs<R: Print>(rt: &R) -> io::Result<()> {
    one_pkr(rt, 12, 7, 1, 33, 6)?;
    one_pkr(rt, 13, 8, 1, 33, 19)?;
    one_pkr(rt, 14, 9, 1, 33, 32)?;
    one_pkr(rt, 15, 10, 1, 33, 45)?;
    one_pkr(rt, 12, 10, 3, 67, 11)?;
    one_pkr(rt, 13, 7, 4, 39, 0)?;
    one_pkr(rt, 14, 8, 4, 52, 0)?;
    one_pkr(rt, 15, 9, 4, 65, 0)?;
    one_pkr(rt, 12, 10, 4, 78, 0)?;
    Ok(())
}
