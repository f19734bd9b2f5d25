// The subframe collector. Records as C has them, with a `From` of their own each way; satellite, week and time, and the two lent buffers, one by one, as C hands
// them over, and which buffer is meant as a bool; zeros where there is none, since a C record has no Option.
ghost use Rattle.std.specs.Prelude.{◌≡◌, replicate};
ghost use Rattle.probe.specs.Subframe.{collector_of, record_of, message_of, SubframeNew, SubframeFeed, SubframeFeedAll};
ghost use Rattle.probe.specs.Subframe.{SubframeView, SubframeCameOut, SubframeHkrootMessage, WordTake};

use crate::tell;
use crate::tell::Told;
use layouts::gst::Stamp;
use subframes::subframe::{CollectSubframe, Message, WordCount};

#[repr(C)]
#[derive(Clone, Copy)]
pub struct SubframeRecord {
    pub week: u16,
    pub subframe: u16,
    pub counts: [u8; 36],
}

#[repr(C)]
#[derive(Clone, Copy)]
pub struct SubframeCalled {
    pub collector: SubframeRecord,
    pub answer: Told,
}

#[repr(C)]
#[derive(Clone, Copy)]
pub struct SubframeTraced {
    pub collector: SubframeRecord,
    pub answer: Told,
    pub consumed: u64,
}

#[repr(C)]
#[derive(Clone, Copy)]
pub struct HkrootTold {
    pub answer: Told,
    pub bytes: [u8; 15],
}

#[repr(C)]
#[derive(Clone, Copy)]
pub struct WordTold {
    pub next: u64,
    pub answer: Told,
}

impl From<SubframeRecord> for CollectSubframe {
    ghost from_gives = { λ from r. r ≡ collector_of from };

    fn from(from: SubframeRecord) -> CollectSubframe {
        let counts = from.counts;
        CollectSubframe {
            week: from.week,
            subframe: from.subframe,
            counts,
        }
    }
}

impl From<CollectSubframe> for SubframeRecord {
    ghost from_gives = { λ from r. r ≡ record_of from };

    fn from(from: CollectSubframe) -> SubframeRecord {
        let counts = from.counts;
        SubframeRecord {
            week: from.week,
            subframe: from.subframe,
            counts,
        }
    }
}

fn message_of(mack: bool) -> Message
    ensures { result ≡ message_of mack }
{
    if mack {
        return Message::Mack;
    }
    Message::Hkroot
}

// A new record.
#[unsafe(no_mangle)]
pub extern "C" fn probe_subframe_new() -> SubframeRecord
    ensures { SubframeNew result }
{
    SubframeRecord::from(subframes::subframe::new())
}

// `subframe::feed`.
#[unsafe(no_mangle)]
pub extern "C" fn probe_subframe_feed(
    collector: SubframeRecord,
    hkroot: &mut [u8],
    mack: &mut [u8],
    page: &[u8],
    satellite: u8,
    week: u16,
    time: u32,
) -> SubframeCalled
    ensures { SubframeFeed collector hkroot.old mack.old
        (record { bytes = page.now; satellite = satellite; week = week; time = time })
        result hkroot.new mack.new }
{
    let before = CollectSubframe::from(collector);
    let stamp = Stamp {
        satellite,
        week,
        time,
    };
    let fed = subframes::subframe::feed(before, hkroot, mack, page, stamp);
    let answer = fed.answer;
    SubframeCalled {
        collector: SubframeRecord::from(fed.collector),
        answer: tell::subframe(answer),
    }
}

// `trace::feed_all`.
#[unsafe(no_mangle)]
pub extern "C" fn probe_subframe_feed_all(
    collector: SubframeRecord,
    hkroot: &mut [u8],
    mack: &mut [u8],
    trace: &[u8],
) -> SubframeTraced
    ensures { SubframeFeedAll collector hkroot.old mack.old trace.now result hkroot.new mack.new }
{
    let before = CollectSubframe::from(collector);
    let fed = subframes::trace::feed_all(before, hkroot, mack, trace);
    let answer = fed.answer;
    SubframeTraced {
        collector: SubframeRecord::from(fed.collector),
        answer: tell::subframe(answer),
        consumed: fed.consumed as u64,
    }
}

// `subframe::view` of HKROOT or MACK, its bytes to the front of `out`, with the answer of the question beside it.
#[unsafe(no_mangle)]
pub extern "C" fn probe_subframe_view<'a>(
    collector: SubframeRecord,
    hkroot: &'a [u8],
    mack: &'a [u8],
    of_mack: bool,
    satellite: u8,
    out: &mut [u8],
) -> Told
    ensures { SubframeView collector hkroot.now mack.now of_mack satellite out.old result out.new }
{
    let from = CollectSubframe::from(collector);
    let message = message_of(of_mack);
    let shown = subframes::subframe::view_shown(from, hkroot, mack, message, satellite);
    let part = subframes::subframe::view(from, hkroot, mack, message, satellite);
    tell::copy(part, out);
    tell::part(shown)
}

// `subframe::came_out`.
#[unsafe(no_mangle)]
pub extern "C" fn probe_subframe_came_out(
    collector: SubframeRecord,
    hkroot: &[u8],
    mack: &[u8],
    satellite: u8,
) -> Told
    ensures { SubframeCameOut collector hkroot.now mack.now satellite result }
{
    let from = CollectSubframe::from(collector);
    let answer = subframes::subframe::came_out(from, hkroot, mack, satellite);
    tell::subframe(answer)
}

fn no_message(answer: Told) -> HkrootTold
    ensures { result ≡ record { answer = answer; bytes = replicate 15 0 } }
{
    HkrootTold {
        answer,
        bytes: [0; 15],
    }
}

// `subframe::hkroot_message`; zeros where there is none.
#[unsafe(no_mangle)]
#[tactic(auto, unfolding(crate::specs::Telling::told))]
pub extern "C" fn probe_subframe_hkroot_message(
    collector: SubframeRecord,
    hkroot: &[u8],
    mack: &[u8],
    satellite: u8,
) -> HkrootTold
    ensures { SubframeHkrootMessage collector hkroot.now mack.now satellite result }
{
    let from = CollectSubframe::from(collector);
    match subframes::subframe::hkroot_message(from, hkroot, mack, satellite) {
        Err(e) => no_message(tell::refused(e)),
        Ok(None) => no_message(tell::nothing()),
        Ok(Some(message)) => {
            let bytes = message.bytes;
            HkrootTold {
                answer: tell::part(Ok(Some(message.part))),
                bytes,
            }
        }
    }
}

// One satellite's count, `subframe::WordCount::take`.
#[unsafe(no_mangle)]
pub extern "C" fn probe_word_take(words: u8, word: u8) -> WordTold
    ensures { WordTake words word result }
{
    let taken = WordCount { words }.take(word);
    let used = taken.used;
    WordTold {
        next: u64::from(taken.next.words),
        answer: tell::word(used),
    }
}
