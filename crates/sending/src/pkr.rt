// A PKR message: written, fed, read and written again.
use crate::{blocks, contents, print, tally};
use dsms::dsm;
use dsms::dsm::CollectDsm;
use layouts::dsm_pkr;
use std::io;
use transmitter::pkr;
use transmitter::pkr::PkrValues;

// How many fields the readers read as they were given. Two of them are what the codes stand for.
fn fields(msg: &[u8], v: PkrValues, key: usize) -> usize {
    tally::held(&[
        tally::is(dsm_pkr::number_of_blocks(msg), msg.len() as u64 / 13),
        tally::is(dsm_pkr::message_id(msg), v.mid),
        tally::is(dsm_pkr::new_public_key_type_number(msg), v.npkt),
        tally::is(dsm_pkr::new_public_key_id(msg), v.npkid),
        tally::is(dsm_pkr::key_size(msg), key as u64),
    ])
}

// How many raw numbers are as they were given: counted, as in `kroot`.
fn numbers(msg: &[u8], v: PkrValues) -> usize {
    pkr::pkr_values(msg).map_or(0, |read| {
        tally::held(&[
            read.nb_dp == v.nb_dp,
            read.mid == v.mid,
            read.npkt == v.npkt,
            read.npkid == v.npkid,
        ])
    })
}

// The four tree nodes, as the reader shows them; zeros where it shows none, which are not those that were given.
fn nodes(msg: &[u8]) -> [u8; 128] {
    let mut nodes = [0u8; 128];
    // by number: the reader is asked by it
    for n in 0..4 {
        if let Ok(node) = dsm_pkr::intermediate_tree_node(msg, n) {
            nodes[32 * n..32 * n + 32].copy_from_slice(&node.bytes);
        }
    }
    nodes
}

// How many parts the readers show as they were given.
fn parts(msg: &[u8], four: &[u8], key: &[u8], padding: &[u8]) -> usize {
    tally::held(&[
        check::same(&nodes(msg), four),
        check::same(dsm_pkr::new_public_key(msg), key),
        check::same(dsm_pkr::padding(msg), padding),
    ])
}

// Whether writing what is read of the message makes the same of the lent bytes. `kroot` says why there are two.
fn is_again(msg: &[u8], id: u64, sent: &[u8]) -> bool {
    let mut lent = contents::BEFORE;
    let four = nodes(msg);
    let Ok(v) = pkr::pkr_values(msg) else {
        return false;
    };
    let wrote = pkr::write_pkr(
        &mut lent,
        id,
        v,
        &four,
        dsm_pkr::new_public_key(msg),
        dsm_pkr::padding(msg),
    );
    wrote.is_ok() && check::same(&lent, sent)
}

fn read<R: Print>(
    rt: &R,
    msg: &[u8],
    v: PkrValues,
    four: &[u8],
    key: &[u8],
    padding: &[u8],
) -> io::Result<()> {
    let count = numbers(msg, v);
    let read = parts(msg, four, key, padding);
    print::read(rt, fields(msg, v, key.len()), count, read)?;
    Ok(())
}

// The rest of a line whose beginning stands. The collector is lent those bytes.
pub(crate) fn sent<R: Print>(
    rt: &R,
    lent: &mut [u8],
    id: u64,
    v: PkrValues,
    four: &[u8],
    key: &[u8],
    padding: &[u8],
) -> io::Result<CollectDsm> {
    let mut before = contents::BEFORE;
    let sent: &mut [u8] = &mut before;
    let wrote = pkr::write_pkr(sent, id, v, four, key, padding);
    print::wrote(rt, wrote)?;
    let collector = blocks::told(rt, dsm::new(), lent, sent, wrote, id)?;
    let shown = dsm::view(collector, lent);
    read(rt, shown, v, four, key, padding)?;
    let many = blocks::length(wrote);
    print::end(rt, shown, is_again(shown, id, sent), sent, many)?;
    Ok(collector)
}
