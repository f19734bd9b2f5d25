// A trace of pages in memory, fed to the subframe collector; docs/FORMATS.md has its layout. The record is checked once, then its counts are lent.
ghost use Rattle.std.specs.Prelude.{◌≡◌, List, ℕ, ◌+◌, ◌*◌, ◌≤◌, ◌<◌, length, take, drop};
ghost use Rattle.layouts.specs.Answer.{refusal as refusal_of};
ghost use Rattle.subframes.specs.Subframe.{record_checks};
ghost use Rattle.layouts.specs.Refusals.{refused_by, refusal_number};
ghost use Rattle.subframes.specs.SubframePromises.{state, page_of, meaning_subframe};
ghost use Rattle.subframes.specs.Trace.{entry_at, entries as entries_of, feed_each, trace_checks};
ghost use Rattle.subframes.specs.TracePromises.{outcome_all, FeedAll};
ghost use Rattle.subframes.specs.inner.Trace.{is_last, ends_with, fed_of};

use crate::page::PageTaken;
use crate::subframe::{CollectSubframe, Pair};
use crate::{page, subframe};
use layouts::gst::Stamp;
use layouts::refusal::Refusal;

#[derive(Clone, Copy)]
pub struct TraceFed {
    pub collector: CollectSubframe,
    pub answer: Result<Option<Pair>, Refusal>,
    pub consumed: usize,
}

// Entry `k` of a trace, without its page.
pub(crate) fn entry_at(trace: &[u8], k: usize) -> Stamp
    requires { 12 * k + 12 ≤ length trace.now }
    ensures { page_of result (take 5 (drop (12 * k + 7) trace.now)) ≡ entry_at trace.now k }
{
    let at = 12 * k;
    Stamp {
        satellite: trace[at],
        week: u16::from_be_bytes([trace[at + 1], trace[at + 2]]),
        time: u32::from_be_bytes([trace[at + 3], trace[at + 4], trace[at + 5], trace[at + 6]]),
    }
}

// Whether the page was its subframe's last, so that its pair comes out.
fn is_last(taken: PageTaken) -> bool
    ensures { result ≡ is_last taken }
{
    matches!(taken, PageTaken::Last)
}

// The answer where an entry that would be refused ends the trace: its refusal, if it is the first.
fn ended(consumed: usize, refusal: Refusal) -> Result<Option<Pair>, Refusal>
    ensures { meaning_subframe result ≡ ends_with consumed (refusal_number refusal) }
{
    if consumed != 0 {
        return Ok(None);
    }
    Err(refusal)
}

// What is handed back.
fn fed(
    week: u16,
    subframe: u16,
    counts: [u8; 36],
    answer: Result<Option<Pair>, Refusal>,
    consumed: usize,
) -> TraceFed
    ensures { (h m : List ℕ) → outcome_all result h m ≡ fed_of week subframe counts (meaning_subframe answer) consumed h m }
{
    TraceFed {
        collector: CollectSubframe {
            week,
            subframe,
            counts,
        },
        answer,
        consumed,
    }
}

// Feeds the entries, where neither the lent bytes nor the record are refused.
fn feed_entries(
    collector: CollectSubframe,
    hkroot: &mut [u8],
    mack: &mut [u8],
    trace: &[u8],
) -> TraceFed
    requires { refusal_of (record_checks (state collector hkroot.old mack.old)) ≡ 0 }
    ensures { outcome_all result hkroot.new mack.new
        ≡ feed_each 0 (state collector hkroot.old mack.old) (entries_of trace.now) }
{
    // entries by their number, and week, subframe and counts apart: the loop then keeps all but the counts in registers
    let many = trace.len() / 12;
    let mut week = collector.week;
    let mut subframe = collector.subframe;
    let mut counts = collector.counts;
    for n in 0..many {
        let stamp = entry_at(trace, n);
        if let Err(refusal) = stamp.check() {
            return fed(week, subframe, counts, ended(n, refusal), n);
        }
        let a = 12 * n + 7;
        let e = 12 * n + 12;
        let page = &trace[a..e];
        let taken = page::take_page(&mut counts, hkroot, mack, week, subframe, page, stamp);
        week = stamp.week;
        subframe = (stamp.time / 30) as u16;
        if is_last(taken) {
            let i = (stamp.satellite - 1) as usize;
            let silent = page::is_silent(hkroot, mack, i);
            let pair = subframe::out_of(silent, week, subframe);
            return fed(week, subframe, counts, Ok(Some(pair)), n + 1);
        }
    }
    fed(week, subframe, counts, Ok(None), many)
}

// The trace, the lent bytes and the record.
fn check_trace(
    collector: CollectSubframe,
    hkroot: &[u8],
    mack: &[u8],
    trace: &[u8],
) -> Result<(), Refusal>
    ensures { refused_by result ≡ refusal_of (trace_checks (state collector hkroot.now mack.now) trace.now) }
{
    if trace.len() % 12 != 0 {
        return Err(Refusal::SliceLength);
    }
    subframe::check_record(collector, hkroot, mack)
}

// Feeds entries from the front until one's pair comes out, complete or silent, the trace ends, or before one that would be refused; tells how many it
// consumed, and the last answer. Refuses 1 for lent bytes other than 540 and 2,160 or a trace that is not whole entries, 12 for the record, 2, 3, 4 for the
// first entry's satellite, week and time.
pub fn feed_all(
    collector: CollectSubframe,
    hkroot: &mut [u8],
    mack: &mut [u8],
    trace: &[u8],
) -> TraceFed
    ensures { FeedAll collector hkroot.old mack.old trace.now result hkroot.new mack.new }
{
    if let Err(refusal) = check_trace(collector, hkroot, mack, trace) {
        return TraceFed {
            collector,
            answer: Err(refusal),
            consumed: 0,
        };
    }
    feed_entries(collector, hkroot, mack, trace)
}
