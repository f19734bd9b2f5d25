// An admitted page at counts that are lent: one step of `feed` and of `feed_all`.
ghost use Rattle.std.specs.Prelude.{◌≡◌, List, ℕ, ◌+◌, ◌≤◌, ◌<◌, length, get_or, set, take, drop};
ghost use Rattle.layouts.specs.Answer.{refusal as refusal_of};
ghost use Rattle.subframes.specs.Subframe.{feed_checks, changed, put4, zeros, is_silent};
ghost use Rattle.subframes.specs.SubframePromises.{page_of};
ghost use Rattle.subframes.specs.inner.Page.{state_of, Offered, PageFed};

use crate::subframe::WordCount;
use layouts::gst::Stamp;

// The lengths 540 and 2,160 are facts of the lent slices, tested once by `check_record`, and no array types: the caller lends slices of any length. Week and
// subframe go apart, so that the loop of `feed_all` keeps them in registers.

// What became of an admitted page: not used, used, or used as the last of its subframe.
#[derive(Clone, Copy)]
pub(crate) enum PageTaken {
    Unused,
    Used,
    Last,
}

// The counts at a page of week `to_week` and subframe `to_subframe`: all 0 where either is another one.
fn restart(counts: &mut [u8; 36], week: u16, subframe: u16, to_week: u16, to_subframe: u16)
    ensures { (h m : List ℕ) → state_of to_week to_subframe counts.new h m
        ≡ changed (state_of week subframe counts.old h m) to_week to_subframe }
{
    if week == to_week {
        if subframe == to_subframe {
            return;
        }
    }
    *counts = [0; 36];
}

// A page's first byte goes to one place, the other four to the other. All are read before any is written, so that the compiler can move the four as one
// number.
fn place(hkroot: &mut [u8], mack: &mut [u8], page: &[u8], h: usize, m: usize)
    requires { (h < length hkroot.old) × (m + 3 < length mack.old) × (length page.now ≡ 5) }
    ensures { (hkroot.new ≡ set hkroot.old h (get_or page.now 0 0))
        × (mack.new ≡ put4 mack.old m page.now) }
{
    let a = page[1];
    let b = page[2];
    let c = page[3];
    let d = page[4];
    hkroot[h] = page[0];
    mack[m] = a;
    mack[m + 1] = b;
    mack[m + 2] = c;
    mack[m + 3] = d;
}

// Whether `many` bytes from `first` on are zeros: a loop to its end, which the compiler makes one over sixteen bytes at a time.
fn are_zeros(bytes: &[u8], first: usize, many: usize) -> bool
    requires { first + many ≤ length bytes.now }
    ensures { result ≡ zeros (take many (drop first bytes.now)) }
{
    let mut any: u8 = 0;
    for byte in &bytes[first..first + many] {
        any |= *byte;
    }
    any == 0
}

// Whether the pair of the satellite at `i` is zeros alone. Asked where a pair comes out and not in the page's step, which the compiler puts into the loop of
// `feed_all` as long as it is small.
pub(crate) fn is_silent(hkroot: &[u8], mack: &[u8], i: usize) -> bool
    requires { (length hkroot.now ≡ 540) × (length mack.now ≡ 2160) × (i < 36) }
    ensures { result ≡ is_silent hkroot.now mack.now i }
{
    let in_hkroot = are_zeros(hkroot, 15 * i, 15);
    let in_mack = are_zeros(mack, 60 * i, 60);
    in_hkroot && in_mack
}

// The page has the satellite's next word: its bytes are kept, and the count rises to `next`.
fn keep(
    counts: &mut [u8; 36],
    hkroot: &mut [u8],
    mack: &mut [u8],
    page: &[u8],
    i: usize,
    word: u8,
    next: u8,
) -> PageTaken
    requires { (length hkroot.old ≡ 540) × (length mack.old ≡ 2160) × (length page.now ≡ 5) × (i < 36) × (word < 15)
        × (next ≡ word + 1) × (get_or counts.old i 0 ≡ word) }
    ensures { Offered counts.old hkroot.old mack.old page.now i word result
        counts.new hkroot.new mack.new }
{
    let at = 15 * i + word as usize;
    place(hkroot, mack, page, at, 4 * at);
    counts[i] = next;
    if next != 15 {
        return PageTaken::Used;
    }
    PageTaken::Last
}

// The page of the satellite at `i`: used where its count takes the word.
fn offer_at(
    counts: &mut [u8; 36],
    hkroot: &mut [u8],
    mack: &mut [u8],
    page: &[u8],
    i: usize,
    word: u8,
) -> PageTaken
    requires { (length hkroot.old ≡ 540) × (length mack.old ≡ 2160) × (length page.now ≡ 5) × (i < 36) × (word < 15) }
    ensures { Offered counts.old hkroot.old mack.old page.now i word result
        counts.new hkroot.new mack.new }
{
    let taken = WordCount { words: counts[i] }.take(word);
    let used = taken.used;
    match used {
        Ok(true) => keep(counts, hkroot, mack, page, i, word, taken.next.words),
        _ => PageTaken::Unused,
    }
}

// Takes an admitted page, where the lent counts are of week `week` and subframe `subframe`. They are then of the page's own.
pub(crate) fn take_page(
    counts: &mut [u8; 36],
    hkroot: &mut [u8],
    mack: &mut [u8],
    week: u16,
    subframe: u16,
    page: &[u8],
    stamp: Stamp,
) -> PageTaken
    requires { refusal_of (feed_checks (state_of week subframe counts.old hkroot.old mack.old) (page_of stamp page.now)) ≡ 0 }
    ensures { PageFed (state_of week subframe counts.old hkroot.old mack.old) (page_of stamp page.now) result
        counts.new hkroot.new mack.new }
{
    // the word is (time / 2) mod 15, without a second division
    let time = stamp.time;
    let number = time / 30;
    restart(counts, week, subframe, stamp.week, number as u16);
    offer_at(
        counts,
        hkroot,
        mack,
        page,
        (stamp.satellite - 1) as usize,
        (time / 2 - 15 * number) as u8,
    )
}
