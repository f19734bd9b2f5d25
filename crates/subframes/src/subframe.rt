// A subframe from its pages.
ghost use Rattle.std.specs.Prelude.{◌≡◌, [], Ok, ◌+◌, ◌-◌, ◌*◌, ◌≤◌, ◌<◌, length, take, drop};
ghost use Rattle.layouts.specs.Answer.{shown as shown_of, refusal as refusal_of};
ghost use Rattle.subframes.specs.Subframe.{small, is_silent, out_of, is_used, range_checks, record_checks, view_checks, ask_checks, feed_checks};
ghost use Rattle.subframes.specs.inner.Page.{answer_of};
ghost use Rattle.subframes.specs.inner.Subframe.{Inside, Joined, eight_of};
ghost use Rattle.layouts.specs.Refusals.{refused_by};
ghost use Rattle.subframes.specs.SubframePromises.{state, page_of, meaning_pair, meaning_subframe, meaning_shown, size_of};
ghost use Rattle.subframes.specs.SubframePromises.{NewSubframe, TakeWord, FeedSubframe, IsUsed};
ghost use Rattle.subframes.specs.SubframePromises.{ViewSubframeShown, CameOut, ViewSubframe, HkrootMessageRead};

use crate::page;
use crate::page::PageTaken;
use layouts::gst;
use layouts::gst::Stamp;
use layouts::part::Part;
use layouts::refusal::Refusal;

// How many words of a satellite's subframe have come, and to which subframe they belong; the bytes are lent by the caller.
#[derive(Clone, Copy)]
pub struct CollectSubframe {
    pub week: u16,
    pub subframe: u16,
    pub counts: [u8; 36],
}

// A pair that came out. One of zeros alone is silent in place of complete: the satellite carries no OSNMA, and its pair goes no further.
#[derive(Clone, Copy, Debug, PartialEq, Eq)]
pub enum Pair {
    Complete { week: u16, time: u32 },
    Silent { week: u16, time: u32 },
}

#[derive(Clone, Copy)]
pub struct SubframeFed {
    pub collector: CollectSubframe,
    pub answer: Result<Option<Pair>, Refusal>,
}

// One satellite's count: the number of the word that comes next, 15 when all have come.
#[derive(Clone, Copy)]
pub struct WordCount {
    pub words: u8,
}

#[derive(Clone, Copy)]
pub struct WordTaken {
    pub next: WordCount,
    pub used: Result<bool, Refusal>,
}

// The two kinds of message that a subframe brings of each satellite.
#[derive(Clone, Copy, Debug, PartialEq, Eq)]
pub enum Message {
    Hkroot,
    Mack,
}

// Where an HKROOT message lies, and its bytes.
#[derive(Clone, Copy)]
pub struct HkrootMessage {
    pub part: Part,
    pub bytes: [u8; 15],
}

impl WordCount {
    // The count goes on by one where the word is the next one, else it stays. Refuses 12 for a count above 15, then 7 for a word above 14.
    pub fn take(self, word: u8) -> WordTaken
        ensures { TakeWord self.words word result }
    {
        // the word that is next comes first: in `offer_at` two tests are then left
        let count = self.words;
        if word < 15 {
            if word == count {
                return WordTaken {
                    next: WordCount { words: count + 1 },
                    used: Ok(true),
                };
            }
        }
        if 15 < count {
            return WordTaken {
                next: self,
                used: Err(Refusal::RecordRange),
            };
        }
        if 14 < word {
            return WordTaken {
                next: self,
                used: Err(Refusal::Argument),
            };
        }
        WordTaken {
            next: self,
            used: Ok(false),
        }
    }
}

pub fn new() -> CollectSubframe
    ensures { NewSubframe result }
{
    CollectSubframe {
        week: 0,
        subframe: 0,
        counts: [0; 36],
    }
}

// Four counts as one number. By numbers of eight counts and not one by one, `all_small` reads the record as it was written: a load across two stores waits
// for both. By sums and no `from_le_bytes`, of which the compiler makes loads of sixteen counts that do wait: `feed` then takes half as long again.
fn joined(a: u8, b: u8, c: u8, d: u8) -> u64
    ensures { Joined a b c d result }
{
    ((d as u64 * 256 + c as u64) * 256 + b as u64) * 256 + a as u64
}

// Whether eight counts, from the one at `i` on, are at most 15.
fn eight_small(counts: [u8; 36], i: usize) -> bool
    requires { i + 8 ≤ 36 }
    ensures { result ≡ small (eight_of counts i) }
{
    let low = joined(counts[i], counts[i + 1], counts[i + 2], counts[i + 3]);
    let high = joined(counts[i + 4], counts[i + 5], counts[i + 6], counts[i + 7]);
    (high * 4294967296 + low) & 0xF0F0F0F0F0F0F0F0 == 0
}

// Whether every count is at most 15.
fn all_small(counts: [u8; 36]) -> bool
    ensures { result ≡ small counts }
{
    if joined(counts[0], counts[1], counts[2], counts[3]) & 0xF0F0F0F0 != 0 {
        return false;
    }
    for k in 0..4 {
        if !eight_small(counts, 4 + 8 * k) {
            return false;
        }
    }
    true
}

// The record.
fn check_range(collector: CollectSubframe) -> Result<(), Refusal>
    ensures { refused_by result ≡ refusal_of (range_checks (state collector [] [])) }
{
    if 4095 < collector.week {
        return Err(Refusal::RecordRange);
    }
    if 20159 < collector.subframe {
        return Err(Refusal::RecordRange);
    }
    let counts = collector.counts;
    if !all_small(counts) {
        return Err(Refusal::RecordRange);
    }
    Ok(())
}

// The lent bytes and the record.
pub(crate) fn check_record(
    collector: CollectSubframe,
    hkroot: &[u8],
    mack: &[u8],
) -> Result<(), Refusal>
    ensures { refused_by result ≡ refusal_of (record_checks (state collector hkroot.now mack.now)) }
{
    if hkroot.len() != 540 {
        return Err(Refusal::SliceLength);
    }
    if mack.len() != 2160 {
        return Err(Refusal::SliceLength);
    }
    check_range(collector)
}

// The lent bytes, the record and the satellite.
fn check_view(
    collector: CollectSubframe,
    hkroot: &[u8],
    mack: &[u8],
    satellite: u8,
) -> Result<(), Refusal>
    ensures { refused_by result ≡ refusal_of (view_checks (state collector hkroot.now mack.now) satellite) }
{
    check_record(collector, hkroot, mack)?;
    gst::check_svn(u64::from(satellite))
}

// A page.
fn check_page(
    collector: CollectSubframe,
    hkroot: &[u8],
    mack: &[u8],
    page: &[u8],
    stamp: Stamp,
) -> Result<(), Refusal>
    ensures { refused_by result ≡ refusal_of (feed_checks (state collector hkroot.now mack.now) (page_of stamp page.now)) }
{
    if page.len() != 5 {
        return Err(Refusal::SliceLength);
    }
    check_record(collector, hkroot, mack)?;
    stamp.check()
}

// A pair comes out: silent or complete.
pub(crate) fn out_of(silent: bool, week: u16, subframe: u16) -> Pair
    ensures { meaning_pair result ≡ out_of silent week subframe }
{
    let time = 30 * subframe as u32;
    if silent {
        return Pair::Silent { week, time };
    }
    Pair::Complete { week, time }
}

// The answer to an admitted page of that week and subframe, with the lent bytes then.
fn answer_of(
    taken: PageTaken,
    hkroot: &[u8],
    mack: &[u8],
    satellite: u8,
    week: u16,
    subframe: u16,
) -> Option<Pair>
    requires { (length hkroot.now ≡ 540) × (length mack.now ≡ 2160) × (1 ≤ satellite) × (satellite ≤ 36) }
    ensures { meaning_subframe (Ok result)
        ≡ answer_of taken week subframe (is_silent hkroot.now mack.now (satellite - 1)) }
{
    // the end of `feed_entries` does the same by itself: one function for both makes `feed` slower by a fifth (docs/BENCHMARKS.md)
    match taken {
        PageTaken::Unused | PageTaken::Used => None,
        PageTaken::Last => {
            let silent = page::is_silent(hkroot, mack, (satellite - 1) as usize);
            Some(out_of(silent, week, subframe))
        }
    }
}

// The two lent slices stay two parameters, here and in every call that is lent them: the caller holds them apart, as C does, and of any lengths.
// Takes a page. Refuses 1 for lent bytes other than 540 and 2,160 or a page other than 5, 12 for the record, 2, 3, 4 for satellite, week and time.
pub fn feed(
    collector: CollectSubframe,
    hkroot: &mut [u8],
    mack: &mut [u8],
    page: &[u8],
    stamp: Stamp,
) -> SubframeFed
    ensures { FeedSubframe collector hkroot.old mack.old (page_of stamp page.now) result
        hkroot.new mack.new }
{
    if let Err(refusal) = check_page(collector, hkroot, mack, page, stamp) {
        return SubframeFed {
            collector,
            answer: Err(refusal),
        };
    }
    let mut counts = collector.counts;
    let taken = page::take_page(
        &mut counts,
        hkroot,
        mack,
        collector.week,
        collector.subframe,
        page,
        stamp,
    );
    let week = stamp.week;
    let subframe = (stamp.time / 30) as u16;
    let pair = answer_of(taken, hkroot, mack, stamp.satellite, week, subframe);
    SubframeFed {
        collector: CollectSubframe {
            week,
            subframe,
            counts,
        },
        answer: Ok(pair),
    }
}

// The record, then satellite, week and time.
fn check_asked(collector: CollectSubframe, stamp: Stamp) -> Result<(), Refusal>
    ensures { refused_by result ≡ refusal_of (ask_checks (state collector [] []) (page_of stamp [])) }
{
    check_range(collector)?;
    stamp.check()
}

// Whether the satellite's next word is that of the time: after a change of week or subframe it is word 0.
fn has_next_word(collector: CollectSubframe, stamp: Stamp) -> bool
    requires { refusal_of (ask_checks (state collector [] []) (page_of stamp [])) ≡ 0 }
    ensures { result ≡ is_used (state collector [] []) (page_of stamp []) }
{
    let word = (stamp.time / 2 % 15) as u8;
    // `as` where a number only widens (here and below): `usize::from` would be a call with a result of its own at each index
    let i = (stamp.satellite - 1) as usize;
    let count = collector.counts[i];
    if collector.week == stamp.week {
        if collector.subframe == (stamp.time / 30) as u16 {
            return word == count;
        }
    }
    word == 0
}

// Whether `feed` would use a page of that satellite, week and time. Refuses 12 for the record, 2, 3, 4 for satellite, week and time.
pub fn is_used(collector: CollectSubframe, stamp: Stamp) -> Result<bool, Refusal>
    ensures { IsUsed collector stamp.satellite stamp.week stamp.time result }
{
    check_asked(collector, stamp)?;
    Ok(has_next_word(collector, stamp))
}

// How many bytes a message has. Two arms, and no discriminants: sizes as the numbers of the kinds would say no more.
fn message_bytes(message: Message) -> usize
    ensures { result ≡ size_of message }
{
    match message {
        Message::Hkroot => 15,
        Message::Mack => 60,
    }
}

// Where the satellite's message lies, or nothing while its words have not all come.
// Refuses 1 for lent bytes other than 540 and 2,160, 12 for the record, 2 for the satellite.
pub fn view_shown(
    collector: CollectSubframe,
    hkroot: &[u8],
    mack: &[u8],
    message: Message,
    satellite: u8,
) -> Result<Option<Part>, Refusal>
    ensures { ViewSubframeShown collector hkroot.now mack.now message satellite result }
{
    check_view(collector, hkroot, mack, satellite)?;
    let i = (satellite - 1) as usize;
    if collector.counts[i] != 15 {
        return Ok(None);
    }
    let many = message_bytes(message);
    Ok(Some(Part {
        first: many * i,
        many,
    }))
}

// What has come out of a satellite in the record's subframe, for a caller who did not keep `feed`'s answer: complete or silent with its time, nothing while
// its words have not all come. Refuses 1 for lent bytes other than 540 and 2,160, 12 for the record, 2 for the satellite.
pub fn came_out(
    collector: CollectSubframe,
    hkroot: &[u8],
    mack: &[u8],
    satellite: u8,
) -> Result<Option<Pair>, Refusal>
    ensures { CameOut collector hkroot.now mack.now satellite result }
{
    check_view(collector, hkroot, mack, satellite)?;
    let i = (satellite - 1) as usize;
    if collector.counts[i] != 15 {
        return Ok(None);
    }
    let silent = page::is_silent(hkroot, mack, i);
    Ok(Some(out_of(silent, collector.week, collector.subframe)))
}

// What is shown of the bytes.
fn part(bytes: &[u8], shown: Option<Part>) -> &[u8]
    requires { Inside shown (length bytes.now) }
    ensures { result.now ≡ shown_of bytes.now (meaning_shown (Ok shown)) }
{
    let Some(part) = shown else {
        return &bytes[..0];
    };
    let end = part.first + part.many;
    &bytes[part.first..end]
}

// The satellite's message, none where `view_shown` shows nothing or refuses.
pub fn view<'a>(
    collector: CollectSubframe,
    hkroot: &'a [u8],
    mack: &'a [u8],
    message: Message,
    satellite: u8,
) -> &'a [u8]
    ensures { ViewSubframe collector hkroot.now mack.now message satellite result.now }
{
    let Ok(shown) = view_shown(collector, hkroot, mack, message, satellite) else {
        return &hkroot[..0];
    };
    match message {
        Message::Hkroot => part(hkroot, shown),
        Message::Mack => part(mack, shown),
    }
}

// The 15 bytes from byte `first` on: three lines, as in `layouts::dsm_pkr`, where it is told why they are not shared.
fn message_at(bytes: &[u8], first: usize) -> [u8; 15]
    requires { first + 15 ≤ length bytes.now }
    ensures { result ≡ take 15 (drop first bytes.now) }
{
    let mut message = [0u8; 15];
    message.copy_from_slice(&bytes[first..first + 15]);
    message
}

// The satellite's HKROOT message, as its 15 bytes; nothing where `view_shown` shows nothing, and refused where it refuses.
pub fn hkroot_message(
    collector: CollectSubframe,
    hkroot: &[u8],
    mack: &[u8],
    satellite: u8,
) -> Result<Option<HkrootMessage>, Refusal>
    ensures { HkrootMessageRead collector hkroot.now mack.now satellite result }
{
    let Some(part) = view_shown(collector, hkroot, mack, Message::Hkroot, satellite)? else {
        return Ok(None);
    };
    let bytes = message_at(hkroot, part.first);
    Ok(Some(HkrootMessage { part, bytes }))
}
