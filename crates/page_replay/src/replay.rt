// A file of pages, replayed page by page.
ghost use Rattle.std.specs.Prelude.{◌≡◌, [], ◌++◌, ◌+◌, ◌*◌, ◌^◌, ◌≤◌, length};
ghost use Rattle.std.specs.Option.{option_or};
ghost use Rattle.layouts.specs.Answer.{refusal as refusal_of};
ghost use Rattle.layouts.specs.Refusals.{refused_by};
ghost use Rattle.page_replay.specs.Replay.{new as new_of, and_then, replayed, pages_of, are_few, replay_checks};
ghost use Rattle.subframes.specs.Subframe.{record_checks};
ghost use Rattle.subframes.specs.SubframePromises.{state as subframe_state};
ghost use Rattle.page_replay.specs.ReplayPromises.{state, meaning_subframes, meaning_dsms, BeginReplay, ReplayPages};
ghost use Rattle.page_replay.specs.inner.Steps.{ran, Room, InRange, AtMostOne};

use crate::page_step;
use crate::page_step::Stepped;
use dsms::dsm;
use dsms::dsm::CollectDsm;
use layouts::gst::Stamp;
use layouts::refusal::Refusal;
use subframes::subframe;
use subframes::subframe::{CollectSubframe, Message};

// A running replay: satellite, week and time of the next page, the two collectors' records, and the totals so far. The caller may hand in any numbers: out of
// range they are refused, so that the type has no invariant.
#[derive(Clone, Copy)]
pub struct PageReplay {
    pub next: Stamp,
    pub subframes: CollectSubframe,
    pub dsms: CollectDsm,
    pub pages: u64,
    pub skipped: u64,
    pub used: u64,
    pub unused: u64,
    pub subframes_done: u64,
    pub dsms_done: u64,
    pub silent: u64,
}

#[derive(Clone, Copy)]
pub struct NewReplay {
    pub replay: PageReplay,
    pub answer: Result<(), Refusal>,
}

// A subframe that was completed, by its time.
#[derive(Clone, Copy, Debug, PartialEq, Eq)]
pub struct SubframeDone {
    pub week: u16,
    pub time: u32,
}

// A DSM that was completed, and how many bytes it has.
#[derive(Clone, Copy, Debug, PartialEq, Eq)]
pub struct DsmDone {
    pub id: u8,
    pub bytes: usize,
}

// How many pages were consumed, and what they completed.
#[derive(Clone, Copy)]
pub struct Replayed {
    pub replay: PageReplay,
    pub answer: Result<usize, Refusal>,
    pub subframe: Option<SubframeDone>,
    pub dsm: Option<DsmDone>,
}

// A record of no pages yet.
fn fresh(stamp: Stamp) -> PageReplay
    ensures { state result [] [] [] ≡ new_of stamp.satellite stamp.week stamp.time [] [] [] }
{
    PageReplay {
        next: stamp,
        subframes: subframe::new(),
        dsms: dsm::new(),
        pages: 0,
        skipped: 0,
        used: 0,
        unused: 0,
        subframes_done: 0,
        dsms_done: 0,
        silent: 0,
    }
}

// A replay of a satellite from the time of its first page on; of zeros where it is refused, since the record stands beside the answer. Refuses 2, 3, 4.
pub fn new(stamp: Stamp) -> NewReplay
    ensures { BeginReplay stamp.satellite stamp.week stamp.time result }
{
    match stamp.check() {
        Ok(()) => NewReplay {
            replay: fresh(stamp),
            answer: Ok(()),
        },
        Err(refusal) => NewReplay {
            replay: fresh(Stamp {
                satellite: 0,
                week: 0,
                time: 0,
            }),
            answer: Err(refusal),
        },
    }
}

// What is completed now, where there is some, takes the place of what was completed before.
fn keep<T: Copy>(so_far: &mut Option<T>, done: Option<T>)
    ensures { so_far.new ≡ option_or done so_far.old }
{
    if done.is_some() {
        *so_far = done;
    }
}

// The next page after others, which complete at most one subframe and one DSM together. In place: most pages complete nothing, and what stands there then is not
// touched. Copied at each page it waits for its own stores (docs/BENCHMARKS.md).
fn and_then(so_far: &mut Stepped, hkroot: &mut [u8], mack: &mut [u8], dsm: &mut [u8], page: &[u8])
    requires in_range { InRange so_far.old.replay × Room so_far.old.replay (2 ^ 62 + 14) × (length page.now ≡ 30) }
    requires at_most_one { AtMostOne (and_then (ran so_far.old hkroot.old mack.old dsm.old) page.now) }
    ensures { ran so_far.new hkroot.new mack.new dsm.new
        ≡ and_then (ran so_far.old hkroot.old mack.old dsm.old) page.now }
{
    let next = page_step::page_step(so_far.replay, hkroot, mack, dsm, page);
    so_far.replay = next.replay;
    keep(&mut so_far.subframe, next.subframe);
    keep(&mut so_far.dsm, next.dsm);
}

// The first `n` pages. By number, and no chunks: each turn is proved of the first `k` pages of the slice, and changes the record and the lent memory.
fn run(
    record: PageReplay,
    hkroot: &mut [u8],
    mack: &mut [u8],
    dsm: &mut [u8],
    pages: &[u8],
    n: usize,
) -> Stepped
    requires { InRange «record» × Room «record» (2 ^ 62) × (n ≤ 15) × (30 * n ≤ length pages.now) }
    ensures { ran result hkroot.new mack.new dsm.new
        ≡ replayed (state «record» hkroot.old mack.old dsm.old) (pages_of n pages.now) }
{
    let mut so_far = Stepped {
        replay: record,
        subframe: None,
        dsm: None,
    };
    for k in 0..n {
        let start = 30 * k;
        let end = start + 30;
        and_then(&mut so_far, hkroot, mack, dsm, &pages[start..end]);
    }
    so_far
}

// Whether every total is at most 2^62.
fn totals_few(record: PageReplay) -> bool
    ensures { result ≡ are_few (state «record» [] [] []).totals }
{
    let totals = [
        record.pages,
        record.skipped,
        record.used,
        record.unused,
        record.subframes_done,
        record.dsms_done,
        record.silent,
    ];
    totals.iter().all(|total| *total <= 1 << 62)
}

// What the subframe collector refuses of the lent bytes and its record, which its question answers for any satellite.
fn check_subframes(collector: CollectSubframe, hkroot: &[u8], mack: &[u8]) -> Result<(), Refusal>
    ensures { refused_by result ≡ refusal_of (record_checks (subframe_state collector hkroot.now mack.now)) }
{
    subframe::view_shown(collector, hkroot, mack, Message::Hkroot, 1)?;
    Ok(())
}

fn check(
    record: PageReplay,
    hkroot: &[u8],
    mack: &[u8],
    dsm: &[u8],
    budget: usize,
) -> Result<(), Refusal>
    ensures { refused_by result ≡ refusal_of (replay_checks (state «record» hkroot.now mack.now dsm.now) budget) }
{
    if dsm.len() != 208 {
        return Err(Refusal::SliceLength);
    }
    check_subframes(record.subframes, hkroot, mack)?;
    if 15 < record.dsms.id {
        return Err(Refusal::RecordRange);
    }
    if !totals_few(record) {
        return Err(Refusal::RecordRange);
    }
    if record.next.check().is_err() {
        return Err(Refusal::RecordRange);
    }
    if 15 < budget {
        return Err(Refusal::Argument);
    }
    Ok(())
}

// Consumes the smaller of the budget and the whole pages lent, and reports that number. Refuses 1 for lent bytes other than 540, 2,160 and 208,
// 12 for the record, 7 for a budget above 15. The lent memory is three slices, each handed on to one of the collectors as it takes it.
pub fn replay(
    record: PageReplay,
    hkroot: &mut [u8],
    mack: &mut [u8],
    dsm: &mut [u8],
    pages: &[u8],
    budget: usize,
) -> Replayed
    ensures { ReplayPages «record» hkroot.old mack.old dsm.old pages.now budget result
        hkroot.new mack.new dsm.new }
{
    if let Err(refusal) = check(record, hkroot, mack, dsm, budget) {
        return Replayed {
            replay: record,
            answer: Err(refusal),
            subframe: None,
            dsm: None,
        };
    }
    let n = budget.min(pages.len() / 30);
    let done = run(record, hkroot, mack, dsm, pages, n);
    Replayed {
        replay: done.replay,
        answer: Ok(n),
        subframe: done.subframe,
        dsm: done.dsm,
    }
}
