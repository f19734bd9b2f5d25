// A DSM from its blocks.
ghost use Rattle.std.specs.Prelude.{◌≡◌, List, [], ◌∷◌, ℕ, ◌+◌, ◌*◌, ◌≤◌, ◌<◌, length};
ghost use Rattle.layouts.specs.Lists.{put};
ghost use Rattle.layouts.specs.Answer.{gives, refusal as refusal_of};
ghost use Rattle.layouts.specs.Meaning.{meaning_type};
ghost use Rattle.layouts.specs.Refusals.{refused_by};
ghost use Rattle.dsms.specs.Dsm.{feed_checks, view_checks, begun, counted};
ghost use Rattle.dsms.specs.inner.Dsm.{legal, Stored, Finished, Taken};
ghost use Rattle.dsms.specs.DsmPromises.{state, NewDsm, FeedDsm, ViewDsmShown, ViewDsm};

use layouts::dsm_header::DsmType;
use layouts::refusal::Refusal;
use layouts::{dsm_header, dsm_kroot, dsm_pkr};

// What has been collected of the DSM with this ID; its bytes are lent by the caller.
#[derive(Clone, Copy)]
pub struct CollectDsm {
    pub id: u8,
    // beside the ID, and no Option of it: an ID above 15 is refused whether or not a block came
    pub came: bool,
    pub held: [bool; 16],
    pub done: bool,
}

// A DSM that came out: its ID and type, and how many of the lent bytes are its own.
#[derive(Clone, Copy, Debug, PartialEq, Eq)]
pub struct CompleteDsm {
    pub id: u8,
    pub dsm_type: DsmType,
    pub bytes: usize,
}

#[derive(Clone, Copy)]
pub struct DsmFed {
    pub collector: CollectDsm,
    pub answer: Result<Option<CompleteDsm>, Refusal>,
}

pub fn new() -> CollectDsm
    ensures { NewDsm result }
{
    CollectDsm {
        id: 0,
        came: false,
        held: [false; 16],
        done: false,
    }
}

// 1 for lent bytes other than 208, then 12 for an ID above 15.
fn check_lent(collector: CollectDsm, dsm: &[u8]) -> Result<(), Refusal>
    ensures { refused_by result ≡ refusal_of (view_checks collector.id dsm.now) }
{
    if dsm.len() != 208 {
        return Err(Refusal::SliceLength);
    }
    if 15 < collector.id {
        return Err(Refusal::RecordRange);
    }
    Ok(())
}

// 1 for a block other than 13, too.
fn check(collector: CollectDsm, dsm: &[u8], block: &[u8]) -> Result<(), Refusal>
    ensures { refused_by result ≡ refusal_of (feed_checks collector.id dsm.now block.now) }
{
    if block.len() != 13 {
        return Err(Refusal::SliceLength);
    }
    check_lent(collector, dsm)
}

// The collector at a block of that ID: a new one where none came before, or the ID differs.
fn begin(collector: CollectDsm, id: u8) -> CollectDsm
    ensures { (m : List ℕ) → state result m ≡ begun (state collector m) id }
{
    if collector.came && collector.id == id {
        return collector;
    }
    CollectDsm {
        id,
        came: true,
        ..new()
    }
}

// The block is held: its first copy is kept. (Lengths are facts here and below, and no types: the caller lends slices, and the readers take them.)
fn store(held: &mut [bool; 16], dsm: &mut [u8], n: usize, block: &[u8])
    requires { (n < 16) × (length dsm.old ≡ 208) × (length block.now ≡ 13) }
    ensures { Stored held.old dsm.old n block.now held.new dsm.new }
{
    if !held[n] {
        dsm[13 * n..13 * n + 13].copy_from_slice(block);
        held[n] = true;
    }
}

// The number of blocks that byte 0 counts, where that is legal.
fn count(dsm: &[u8], dsm_type: DsmType) -> Option<usize>
    requires { length dsm.now ≡ 208 }
    ensures { (t : ℕ) → meaning_type dsm_type ≡ gives (t ∷ []) → result ≡ legal (counted t dsm.now) }
{
    let number = match dsm_type {
        DsmType::Kroot => dsm_kroot::number_of_blocks(dsm),
        DsmType::Pkr => dsm_pkr::number_of_blocks(dsm),
    };
    number.ok().map(|n| n as usize)
}

// Done, with an answer, where all counted blocks are held.
fn finish(collector: CollectDsm, dsm: &[u8]) -> DsmFed
    requires { (collector.id ≤ 15) × (length dsm.now ≡ 208) }
    ensures { Finished collector dsm.now result }
{
    let id = collector.id;
    let dsm_type = dsm_header::dsm_type(id * 16);
    match count(dsm, dsm_type) {
        Some(n) if collector.held[..n].iter().all(|&held| held) => DsmFed {
            collector: CollectDsm {
                done: true,
                ..collector
            },
            answer: Ok(Some(CompleteDsm {
                id,
                dsm_type,
                bytes: 13 * n,
            })),
        },
        _ => DsmFed {
            collector,
            answer: Ok(None),
        },
    }
}

// A block of the collector's own DSM.
fn take(collector: CollectDsm, dsm: &mut [u8], n: usize, block: &[u8]) -> DsmFed
    requires { (collector.id ≤ 15) × (n < 16) × (length dsm.old ≡ 208) × (length block.now ≡ 13) }
    ensures { Taken collector dsm.old n block.now result dsm.new }
{
    if collector.done {
        return DsmFed {
            collector,
            answer: Ok(None),
        };
    }
    let mut next = collector;
    store(&mut next.held, dsm, n, block);
    finish(next, dsm)
}

// Takes a block with its header byte. Refuses 1 for lent bytes other than 208 or a block other than 13, then 12 for an ID above 15.
pub fn feed(collector: CollectDsm, dsm: &mut [u8], header: u8, block: &[u8]) -> DsmFed
    ensures { FeedDsm collector dsm.old header block.now result dsm.new }
{
    // The record stands beside a refusal too, so no `?`.
    if let Err(refusal) = check(collector, dsm, block) {
        return DsmFed {
            collector,
            answer: Err(refusal),
        };
    }
    let next = begin(collector, dsm_header::dsm_id(header));
    take(next, dsm, dsm_header::dsm_block_id(header) as usize, block)
}

// How many bytes of the DSM are shown: nothing without done or a legal count. Refuses 1 for other than 208 bytes, then 12.
pub fn view_shown(collector: CollectDsm, dsm: &[u8]) -> Result<Option<usize>, Refusal>
    ensures { ViewDsmShown collector dsm.now result }
{
    check_lent(collector, dsm)?;
    if !collector.done {
        return Ok(None);
    }
    Ok(count(dsm, dsm_header::dsm_type(collector.id * 16)).map(|n| 13 * n))
}

// The DSM's bytes, none where `view_shown` shows nothing or refuses.
pub fn view(collector: CollectDsm, dsm: &[u8]) -> &[u8]
    ensures { ViewDsm collector dsm.now result.now }
{
    let bytes = view_shown(collector, dsm).unwrap_or(None).unwrap_or(0);
    &dsm[..bytes]
}
