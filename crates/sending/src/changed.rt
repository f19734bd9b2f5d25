// A technician changes one field of a recording and sends it: the week, one later, under another ID.
use crate::{blocks, contents, kroot, print};
use dsms::dsm;
use dsms::dsm::{CollectDsm, CompleteDsm};
use layouts::dsm_kroot;
use layouts::refusal::Refusal;
use std::io;
use transmitter::kroot::{KrootValues, kroot_values, write_kroot};

// The values with the next week; week 4,095 has none, and is refused.
fn later(v: KrootValues) -> KrootValues {
    let mut next = v;
    if next.wn_k < 4096 {
        next.wn_k += 1;
    }
    next
}

// What is read of the message, with the next week.
fn changed(sent: &mut [u8], id: u64, msg: &[u8]) -> Result<CompleteDsm, Refusal> {
    let v = kroot_values(msg)?;
    write_kroot(
        sent,
        id,
        later(v),
        dsm_kroot::kroot(msg),
        dsm_kroot::digital_signature(msg),
        dsm_kroot::padding(msg),
    )
}

// The week as the collector's message has it.
fn week<R: Print>(rt: &R, msg: &[u8]) -> io::Result<()> {
    match dsm_kroot::kroot_wn(msg) {
        Err(e) => print!(rt; ", refused {}", e.number()),
        Ok(week) => print!(rt; ", week {week}"),
    }
}

// The message fed, and what the collector then shows of it.
fn told<R: Print>(
    rt: &R,
    collector: CollectDsm,
    lent: &mut [u8],
    sent: &[u8],
    wrote: Result<CompleteDsm, Refusal>,
    id: u64,
) -> io::Result<CollectDsm> {
    print!(rt; "id {id}")?;
    print::wrote(rt, wrote)?;
    let next = blocks::told(rt, collector, lent, sent, wrote, id)?;
    week(rt, dsm::view(next, lent))?;
    Ok(next)
}

// Whether the two differ in the week's bytes alone.
fn is_else_same(old: &[u8], new: &[u8]) -> bool {
    check::same(contents::first(old, 4), contents::first(new, 4))
        && check::same(contents::behind(old, 6), contents::behind(new, 6))
}

// The recording with the next week, fed to the collector that has the recording.
fn sent_again<R: Print>(
    rt: &R,
    collector: CollectDsm,
    lent: &mut [u8],
    old: &[u8],
) -> io::Result<()> {
    let mut before = contents::BEFORE;
    let new: &mut [u8] = &mut before;
    let wrote = changed(new, 9, dsm::view(collector, lent));
    print!(rt; "sent again ")?;
    told(rt, collector, lent, new, wrote, 9)?;
    print::held(
        rt,
        is_else_same(old, new),
        ", all else the same\n",
        ", more changed\n",
    )?;
    Ok(())
}

pub(crate) fn all<R: Print>(rt: &R) -> io::Result<()> {
    let mut before = contents::BEFORE;
    let sent: &mut [u8] = &mut before;
    let mut zeros = [0u8; 208];
    let lent: &mut [u8] = &mut zeros;
    let wrote = kroot::recorded(sent, 4);
    print!(rt; "recorded ")?;
    let collector = told(rt, dsm::new(), lent, sent, wrote, 4)?;
    print!(rt; "\n")?;
    sent_again(rt, collector, lent, sent)?;
    Ok(())
}
