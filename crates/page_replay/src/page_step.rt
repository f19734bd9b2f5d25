// What one page does to a replay: it is skipped, or feeds the subframe collector, whose complete HKROOTs feed the DSM collector.
ghost use Rattle.std.specs.Prelude.{◌≡◌, List, ℕ, ◌+◌, ◌^◌, ◌≤◌, length};
ghost use Rattle.page_replay.specs.Replay.{is_taken, hkroot_of, fed_hkroot, passed_on, subframes_in, silent_in, dsms_in, one as one_of};
ghost use Rattle.page_replay.specs.Replay.{skipped as skipped_of, counted as counted_of, fed as fed_of, page_step};
ghost use Rattle.layouts.specs.InavPage.{is_counted, osnma as osnma_of};
ghost use Rattle.subframes.specs.SubframePromises.{outcome as subframe_outcome, meaning_subframe, meaning_word, state as subframe_state};
ghost use Rattle.dsms.specs.DsmPromises.{outcome as dsm_outcome, meaning_dsm, state as dsm_state};
ghost use Rattle.page_replay.specs.ReplayPromises.{state, meaning_subframes, meaning_dsms};
ghost use Rattle.page_replay.specs.inner.Steps.{ran, Room, InRange};

use crate::page_time;
use crate::replay::{DsmDone, PageReplay, SubframeDone};
use dsms::dsm;
use dsms::dsm::{CollectDsm, CompleteDsm, DsmFed};
use layouts::inav_page;
use layouts::inav_page::PageKind;
use layouts::refusal::Refusal;
use subframes::subframe;
use subframes::subframe::{CollectSubframe, Pair, SubframeFed};

// That a record is in range (`InRange`, `Room`) is a fact of each step and no invariant of its type: any record may be handed in, and is refused otherwise.
// The lent slices are three parameters, as `replay::replay` has them.

// What pages made of a replay, and what they completed.
#[derive(Clone, Copy)]
pub(crate) struct Stepped {
    pub replay: PageReplay,
    pub subframe: Option<SubframeDone>,
    pub dsm: Option<DsmDone>,
}

// Whether the page counts. A match of all three, and no `matches!`: tried, and it does not tell which of the others it was.
fn counts(page: &[u8]) -> bool
    requires { length page.now ≡ 30 }
    ensures { result ≡ is_counted page.now }
{
    match inav_page::kind(page) {
        Ok(PageKind::Counts) => true,
        Ok(PageKind::Skipped) => false,
        Err(_) => false,
    }
}

// Whether the subframe collector's question is answered with yes.
fn is_taken(answer: Result<bool, Refusal>) -> bool
    ensures { result ≡ is_taken (meaning_word answer) }
{
    matches!(answer, Ok(true))
}

// An HKROOT message feeds the DSM collector: byte 1 is the DSM header, the block follows it.
fn feed_message(dsms: CollectDsm, dsm: &mut [u8], message: [u8; 15]) -> DsmFed
    ensures { dsm_outcome result dsm.new ≡ fed_hkroot (dsm_state dsms dsm.old) message }
{
    dsm::feed(dsms, dsm, message[1], &message[2..15])
}

// So does the satellite's message, handed over whole; zeros where none is shown, as the definition (`hkroot_of`) has them.
fn feed_hkroot(
    collector: CollectSubframe,
    hkroot: &[u8],
    mack: &[u8],
    satellite: u8,
    dsms: CollectDsm,
    dsm: &mut [u8],
) -> DsmFed
    ensures { dsm_outcome result dsm.new
        ≡ fed_hkroot (dsm_state dsms dsm.old) (hkroot_of (subframe_state collector hkroot.now mack.now) satellite) }
{
    let bytes = match subframe::hkroot_message(collector, hkroot, mack, satellite) {
        Ok(Some(message)) => message.bytes,
        Ok(None) | Err(_) => [0; 15],
    };
    feed_message(dsms, dsm, bytes)
}

// The same, where the message has become complete; else nothing. A silent one goes no further.
fn pass_on(
    fed: SubframeFed,
    hkroot: &[u8],
    mack: &[u8],
    satellite: u8,
    dsms: CollectDsm,
    dsm: &mut [u8],
) -> DsmFed
    ensures { dsm_outcome result dsm.new
        ≡ passed_on (subframes_in (meaning_subframe fed.answer))
        (subframe_state fed.collector hkroot.now mack.now) satellite (dsm_state dsms dsm.old) }
{
    match fed.answer {
        Ok(Some(Pair::Complete { .. })) => feed_hkroot(
            fed.collector,
            hkroot,
            mack,
            satellite,
            dsms,
            dsm,
        ),
        Ok(None) | Ok(Some(Pair::Silent { .. })) | Err(_) => DsmFed {
            collector: dsms,
            answer: Ok(None),
        },
    }
}

fn subframe_done(answer: Result<Option<Pair>, Refusal>) -> Option<SubframeDone>
    ensures { meaning_subframes result ≡ subframes_in (meaning_subframe answer) }
{
    match answer {
        Ok(Some(Pair::Complete { week, time })) => Some(SubframeDone { week, time }),
        _ => None,
    }
}

// How many silent subframes an answer tells of.
fn silent_in(answer: Result<Option<Pair>, Refusal>) -> u64
    ensures value { result ≡ length (silent_in (meaning_subframe answer)) }
    ensures upper_bound { result ≤ 1 }
{
    u64::from(matches!(answer, Ok(Some(Pair::Silent { .. }))))
}

fn dsm_done(answer: Result<Option<CompleteDsm>, Refusal>) -> Option<DsmDone>
    ensures { meaning_dsms result ≡ dsms_in (meaning_dsm answer) }
{
    match answer {
        Ok(Some(CompleteDsm { id, bytes, .. })) => Some(DsmDone { id, bytes }),
        _ => None,
    }
}

// After a page that counts, used or not, by what the two collectors made of it.
fn tally(record: PageReplay, used: bool, fed: SubframeFed, passed: DsmFed) -> Stepped
    requires { InRange «record» × Room «record» (2 ^ 62 + 14) }
    ensures { (h m d h₀ m₀ d₀ : List ℕ) → ran result h m d
        ≡ counted_of (state «record» h₀ m₀ d₀) used (subframe_outcome fed h m) (dsm_outcome passed d) }
{
    let subframe = subframe_done(fed.answer);
    let dsm = dsm_done(passed.answer);
    let replay = PageReplay {
        next: page_time::later(record.next),
        subframes: fed.collector,
        dsms: passed.collector,
        pages: record.pages + 1,
        skipped: record.skipped,
        used: record.used + u64::from(used),
        unused: record.unused + u64::from(!used),
        subframes_done: record.subframes_done + u64::from(subframe.is_some()),
        dsms_done: record.dsms_done + u64::from(dsm.is_some()),
        silent: record.silent + silent_in(fed.answer),
    };
    Stepped {
        replay,
        subframe,
        dsm,
    }
}

// A page that is skipped: time passes.
fn skip(record: PageReplay) -> Stepped
    requires { InRange «record» × Room «record» (2 ^ 62 + 14) }
    ensures { (h m d : List ℕ) → ran result h m d ≡ skipped_of (state «record» h m d) }
{
    let mut replay = record;
    replay.next = page_time::later(record.next);
    replay.pages = record.pages + 1;
    replay.skipped = record.skipped + 1;
    Stepped {
        replay,
        subframe: None,
        dsm: None,
    }
}

// A page that counts feeds the subframe collector.
fn feed_page(
    record: PageReplay,
    hkroot: &mut [u8],
    mack: &mut [u8],
    dsm: &mut [u8],
    page: &[u8],
) -> Stepped
    requires { InRange «record» × Room «record» (2 ^ 62 + 14) × (length page.now ≡ 30) }
    ensures { ran result hkroot.new mack.new dsm.new
        ≡ fed_of (state «record» hkroot.old mack.old dsm.old)
        (record { bytes = osnma_of page.now; satellite = «record».next.satellite; week = «record».next.week; time = «record».next.time }) }
{
    let stamp = record.next;
    let used = is_taken(subframe::is_used(record.subframes, stamp));
    let bytes = inav_page::osnma(page).unwrap();
    let fed = subframe::feed(record.subframes, hkroot, mack, &bytes, stamp);
    let passed = pass_on(fed, hkroot, mack, stamp.satellite, record.dsms, dsm);
    tally(record, used, fed, passed)
}

// The next page.
pub(crate) fn page_step(
    record: PageReplay,
    hkroot: &mut [u8],
    mack: &mut [u8],
    dsm: &mut [u8],
    page: &[u8],
) -> Stepped
    requires { InRange «record» × Room «record» (2 ^ 62 + 14) × (length page.now ≡ 30) }
    ensures { ran result hkroot.new mack.new dsm.new
        ≡ page_step (state «record» hkroot.old mack.old dsm.old) page.now }
{
    if !counts(page) {
        return skip(record);
    }
    feed_page(record, hkroot, mack, dsm, page)
}
