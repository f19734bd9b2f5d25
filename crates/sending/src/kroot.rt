// A KROOT message: written, fed, read and written again.
use crate::{blocks, contents, print, tally};
use dsms::dsm;
use dsms::dsm::CompleteDsm;
use layouts::dsm_kroot::EcdsaFunction;
use layouts::refusal::Refusal;
use layouts::{bits, dsm_kroot};
use std::io;
use transmitter::kroot;
use transmitter::kroot::KrootValues;

// How many fields are read as they were given; the two reserved ones, which are written as zero, come first. Three of them are what
// the codes stand for.
fn fields(msg: &[u8], v: KrootValues, key: usize) -> usize {
    tally::held(&[
        tally::is(bits::read_bits(msg, 10, 2), 0),
        tally::is(bits::read_bits(msg, 32, 4), 0),
        tally::is(dsm_kroot::number_of_blocks(msg), msg.len() as u64 / 13),
        tally::is(dsm_kroot::public_key_id(msg), v.pkid),
        tally::is(dsm_kroot::kroot_chain_id(msg), v.cidkr),
        tally::is(dsm_kroot::hash_function_number(msg), v.hf),
        tally::is(dsm_kroot::mac_function_number(msg), v.mf),
        tally::is(dsm_kroot::key_size(msg), key as u64),
        tally::is(dsm_kroot::tag_size(msg), contents::TAG_BITS),
        tally::is(dsm_kroot::mac_lookup_table(msg), v.maclt),
        tally::is(dsm_kroot::kroot_wn(msg), v.wn_k),
        tally::is(dsm_kroot::kroot_towh(msg), v.towh_k),
        tally::is(dsm_kroot::alpha(msg), v.alpha),
    ])
}

// How many raw numbers are as they were given: they are counted, which an equality of the two would not tell.
fn same_numbers(read: KrootValues, v: KrootValues) -> usize {
    tally::held(&[
        read.nb_dk == v.nb_dk,
        read.pkid == v.pkid,
        read.cidkr == v.cidkr,
        read.hf == v.hf,
        read.mf == v.mf,
        read.ks == v.ks,
        read.ts == v.ts,
        read.maclt == v.maclt,
        read.wn_k == v.wn_k,
        read.towh_k == v.towh_k,
        read.alpha == v.alpha,
    ])
}

fn numbers(msg: &[u8], v: KrootValues) -> usize {
    kroot::kroot_values(msg).map_or(0, |read| same_numbers(read, v))
}

// How many parts the readers show as they were given.
fn parts(msg: &[u8], key: &[u8], signature: &[u8], padding: &[u8]) -> usize {
    tally::held(&[
        check::same(dsm_kroot::kroot(msg), key),
        check::same(dsm_kroot::digital_signature(msg), signature),
        check::same(dsm_kroot::padding(msg), padding),
    ])
}

fn curve<R: Print>(rt: &R, msg: &[u8]) -> io::Result<()> {
    match dsm_kroot::ecdsa_function(msg) {
        Err(e) => print!(rt; ", no curve {}", e.number()),
        Ok(EcdsaFunction::P256Sha256) => print!(rt; ", P-256"),
        Ok(EcdsaFunction::P521Sha512) => print!(rt; ", P-521"),
    }
}

// Whether writing what is read of the message makes the same of the lent bytes. Like the one of `pkr`, with other readers and another writer: one for both
// would be handed all five.
fn is_again(msg: &[u8], id: u64, sent: &[u8]) -> bool {
    let mut lent = contents::BEFORE;
    let Ok(v) = kroot::kroot_values(msg) else {
        return false;
    };
    let wrote = kroot::write_kroot(
        &mut lent,
        id,
        v,
        dsm_kroot::kroot(msg),
        dsm_kroot::digital_signature(msg),
        dsm_kroot::padding(msg),
    );
    wrote.is_ok() && check::same(&lent, sent)
}

fn read<R: Print>(
    rt: &R,
    msg: &[u8],
    v: KrootValues,
    key: &[u8],
    signature: &[u8],
    padding: &[u8],
) -> io::Result<()> {
    curve(rt, msg)?;
    let count = numbers(msg, v);
    let read = parts(msg, key, signature, padding);
    print::read(rt, fields(msg, v, key.len()), count, read)?;
    Ok(())
}

// The rest of a line whose beginning stands. The parts stay apart, as the writer is lent them; `pkr::sent` has others, and hands its collector back.
pub(crate) fn sent<R: Print>(
    rt: &R,
    id: u64,
    v: KrootValues,
    key: &[u8],
    signature: &[u8],
    padding: &[u8],
) -> io::Result<()> {
    let mut before = contents::BEFORE;
    let sent: &mut [u8] = &mut before;
    let wrote = kroot::write_kroot(sent, id, v, key, signature, padding);
    print::wrote(rt, wrote)?;
    let mut zeros = [0u8; 208];
    let lent: &mut [u8] = &mut zeros;
    let collector = blocks::told(rt, dsm::new(), lent, sent, wrote, id)?;
    let shown = dsm::view(collector, lent);
    read(rt, shown, v, key, signature, padding)?;
    let many = blocks::length(wrote);
    print::end(rt, shown, is_again(shown, id, sent), sent, many)?;
    Ok(())
}

// A message of 8 blocks, for a bench that has it from a recording.
pub(crate) fn recorded(sent: &mut [u8], id: u64) -> Result<CompleteDsm, Refusal> {
    let keys = contents::rising(1);
    let signatures = contents::rising(51);
    let paddings = contents::rising(201);
    kroot::write_kroot(
        sent,
        id,
        contents::kroot(2, 4),
        contents::first(&keys, 16),
        contents::first(&signatures, 64),
        contents::first(&paddings, 11),
    )
}
