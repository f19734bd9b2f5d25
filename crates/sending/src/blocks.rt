// A message's blocks, cut and fed to a collector.
use dsms::dsm;
use dsms::dsm::{CollectDsm, CompleteDsm};
use layouts::dsm_header::DsmType;
use layouts::refusal::Refusal;
use std::io;
use transmitter::blocks;
use transmitter::blocks::BlockCut;

#[derive(Clone, Copy)]
struct Fed {
    pub collector: CollectDsm,
    pub calls: u64,
    // How many calls were answered with nothing.
    pub nothing: u64,
    // The call that was answered with the writer's ID, type and length.
    pub complete: Option<u64>,
}

fn start(collector: CollectDsm) -> Fed {
    Fed {
        collector,
        calls: 0,
        nothing: 0,
        complete: None,
    }
}

// The length of what was written; 0 for a refusal, of which no byte is shown and no block is fed.
pub(crate) fn length(wrote: Result<CompleteDsm, Refusal>) -> usize {
    wrote.map_or(0, |message| message.bytes)
}

// Whether the writer answered so.
fn answers(wrote: Result<CompleteDsm, Refusal>, told: CompleteDsm) -> bool {
    wrote == Ok(told)
}

// The lent bytes and the writer's answer go with the record from call to call, apart: the record is by value, the bytes are the caller's.
// What an answer adds.
fn with(
    fed: Fed,
    wrote: Result<CompleteDsm, Refusal>,
    answer: Result<Option<CompleteDsm>, Refusal>,
) -> Fed {
    let mut next = fed;
    next.calls = fed.calls.saturating_add(1);
    match answer {
        Err(_) => {}
        Ok(None) => next.nothing = fed.nothing.saturating_add(1),
        Ok(Some(told)) => {
            if answers(wrote, told) {
                next.complete = Some(next.calls);
            }
        }
    }
    next
}

fn fed_block(
    fed: Fed,
    lent: &mut [u8],
    wrote: Result<CompleteDsm, Refusal>,
    header: u8,
    block: &[u8],
) -> Fed {
    let collector = fed.collector;
    let done = dsm::feed(collector, lent, header, block);
    let mut next = fed;
    next.collector = done.collector;
    with(next, wrote, done.answer)
}

// A block that was refused is not fed.
fn fed_cut(
    fed: Fed,
    lent: &mut [u8],
    wrote: Result<CompleteDsm, Refusal>,
    cut: Result<BlockCut, Refusal>,
) -> Fed {
    match cut {
        Err(_) => fed,
        Ok(cut) => {
            let block = cut.bytes;
            fed_block(fed, lent, wrote, cut.header, &block)
        }
    }
}

// Block `n`; block 5, which every message has, comes twice.
fn turn(
    fed: Fed,
    lent: &mut [u8],
    sent: &[u8],
    wrote: Result<CompleteDsm, Refusal>,
    id: u64,
    n: u64,
) -> Fed {
    let fed = fed_cut(fed, lent, wrote, blocks::block(sent, id, n));
    if n == 5 {
        return fed_cut(fed, lent, wrote, blocks::block(sent, id, n));
    }
    fed
}

// All blocks of what was written, the last one first: a loop with calls that change the lent bytes.
fn feed(
    collector: CollectDsm,
    lent: &mut [u8],
    sent: &[u8],
    wrote: Result<CompleteDsm, Refusal>,
    id: u64,
) -> Fed {
    let mut fed = start(collector);
    for n in (0..length(wrote) as u64 / 13).rev() {
        fed = turn(fed, lent, sent, wrote, id, n);
    }
    fed
}

// All blocks fed, and a line's words about it.
pub(crate) fn told<R: Print>(
    rt: &R,
    collector: CollectDsm,
    lent: &mut [u8],
    sent: &[u8],
    wrote: Result<CompleteDsm, Refusal>,
    id: u64,
) -> io::Result<CollectDsm> {
    let fed = feed(collector, lent, sent, wrote, id);
    let call = fed.complete.unwrap_or(0);
    print!(rt; ", nothing {} times, complete at call {call}", fed.nothing)?;
    Ok(fed.collector)
}
