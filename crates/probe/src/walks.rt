// The recorder's questions of a MACK message. Sizes and lent buffers one by one, as C hands them over; zeros where there is none.
#![tactic(auto, unfolding(crate::specs::Telling::told))]

ghost use Rattle.std.specs.Prelude.{◌≡◌, replicate};
ghost use Rattle.recorder.specs.WalkPromises.{judged_walk};
ghost use Rattle.probe.specs.Walks.{walk_told, WalkSlots, TimingTagsRead, WalkComplete};

use crate::subframe::SubframeRecord;
use crate::tell;
use crate::tell::Told;
use layouts::mack::{Mack, Sizes};
use recorder::walk::Walked;
use subframes::subframe::CollectSubframe;

#[repr(C)]
#[derive(Clone, Copy)]
pub struct WalkTold {
    pub slots: Told,
    pub timing: Told,
    pub tags: [u8; 9],
}

#[repr(C)]
#[derive(Clone, Copy)]
pub struct TimingTold {
    pub timing: Told,
    pub tags: [u8; 9],
}

fn sizes(key_size_bytes: usize, tag_size_bits: usize) -> Sizes
    ensures { (result.key_bytes ≡ key_size_bytes) × (result.tag_bits ≡ tag_size_bits) }
{
    Sizes {
        key_bytes: key_size_bytes,
        tag_bits: tag_size_bits,
    }
}

fn judged(walked: Walked) -> WalkTold
    ensures { result ≡ walk_told (judged_walk walked) }
{
    let slots = walked.slots;
    let timing = walked.timing;
    let tags = timing.tags;
    WalkTold {
        slots: tell::verdict(slots),
        timing: tell::given(u64::from(timing.count), 0, 0),
        tags,
    }
}

fn unjudged(answer: Told) -> WalkTold
    ensures { result ≡ record { slots = answer; timing = answer; tags = replicate 9 0 } }
{
    WalkTold {
        slots: answer,
        timing: answer,
        tags: [0; 9],
    }
}

// `walk::walk`; zeros beside a refusal.
#[unsafe(no_mangle)]
pub extern "C" fn probe_walk(
    mack: &[u8],
    key_size_bytes: usize,
    tag_size_bits: usize,
    sender: u8,
    maclt: u8,
    msg: usize,
) -> WalkTold
    ensures { WalkSlots mack.now key_size_bytes tag_size_bits sender maclt msg result }
{
    let sizes = sizes(key_size_bytes, tag_size_bits);
    match recorder::walk::walk(Mack { msg: mack, sizes }, sender, maclt, msg) {
        Err(e) => unjudged(tell::refused(e)),
        Ok(walked) => judged(walked),
    }
}

// `timing::timing_tags`; zeros beside a refusal.
#[unsafe(no_mangle)]
pub extern "C" fn probe_timing_tags(
    mack: &[u8],
    key_size_bytes: usize,
    tag_size_bits: usize,
) -> TimingTold
    ensures { TimingTagsRead mack.now key_size_bytes tag_size_bits result }
{
    let sizes = sizes(key_size_bytes, tag_size_bits);
    match recorder::timing::timing_tags(Mack { msg: mack, sizes }) {
        Err(e) => TimingTold {
            timing: tell::refused(e),
            tags: [0; 9],
        },
        Ok(listed) => {
            let tags = listed.tags;
            TimingTold {
                timing: tell::given(u64::from(listed.count), 0, 0),
                tags,
            }
        }
    }
}

// `walk::walk_complete`; zeros where there is no message.
#[unsafe(no_mangle)]
pub extern "C" fn probe_walk_complete<'a>(
    collector: SubframeRecord,
    hkroot: &'a [u8],
    mack: &'a [u8],
    satellite: u8,
    key_size_bytes: usize,
    tag_size_bits: usize,
    maclt: u8,
) -> WalkTold
    ensures { WalkComplete collector hkroot.now mack.now satellite key_size_bytes tag_size_bits maclt result }
{
    let from = CollectSubframe::from(collector);
    let sizes = sizes(key_size_bytes, tag_size_bits);
    match recorder::walk::walk_complete(from, hkroot, mack, satellite, sizes, maclt) {
        Err(e) => unjudged(tell::refused(e)),
        Ok(None) => unjudged(tell::nothing()),
        Ok(Some(walked)) => judged(walked),
    }
}
