// The recorder's questions: of a MACK message that it holds, and of one that the subframe collector has put together.
ghost use Rattle.std.specs.Prelude.{◌≡◌};
ghost use Rattle.layouts.specs.Answer.{refusal as refusal_of, answered, nothing};
ghost use Rattle.layouts.specs.Refusals.{refused_by};
ghost use Rattle.recorder.specs.Walk.{unjudged, verdict, table_checks, walk_checks};
ghost use Rattle.recorder.specs.WalkPromises.{judged_walk, meaning_complete, WalkSlots, WalkComplete};

use crate::slots::Verdict;
use crate::timing::TimingTags;
use crate::{slots, timing};
use layouts::mack::{Mack, Sizes};
use layouts::refusal::Refusal;
use layouts::{gst, maclt};
use subframes::subframe;
use subframes::subframe::{CollectSubframe, Message, Pair};

// The verdict on the slots, and beside it the tags that hold ADKD 4, whether or not the slots fit.
#[derive(Clone, Copy)]
pub struct Walked {
    pub slots: Verdict,
    pub timing: TimingTags,
}

// 7 for sizes and message number, then 8 for the ID. ID and message number are no struct here: `layouts::maclt` takes them apart, and so do the callers.
fn check_table(sizes: Sizes, maclt: u8, msg: usize) -> Result<(), Refusal>
    ensures { refused_by result ≡ refusal_of (table_checks sizes.key_bytes sizes.tag_bits maclt msg) }
{
    sizes.num_tags()?;
    if 1 < msg {
        return Err(Refusal::Argument);
    }
    maclt::nt(maclt)?;
    Ok(())
}

// What is refused of what is walked.
fn check(mack: Mack<'_>, sender: u8, maclt: u8, msg: usize) -> Result<(), Refusal>
    ensures { refused_by result
        ≡ refusal_of (walk_checks mack.entry.msg.now mack.entry.sizes.key_bytes mack.entry.sizes.tag_bits sender maclt msg) }
{
    if mack.msg.len() != 60 {
        return Err(Refusal::SliceLength);
    }
    gst::check_svn(u64::from(sender))?;
    check_table(mack.sizes, maclt, msg)
}

// The verdict and the list, where nothing is refused.
fn judge(mack: Mack<'_>, sender: u8, maclt: u8, msg: usize) -> Walked
    requires { refusal_of (walk_checks mack.msg.now mack.sizes.key_bytes mack.sizes.tag_bits sender maclt msg) ≡ 0 }
    ensures { judged_walk result
        ≡ verdict mack.entry.msg.now mack.entry.sizes.key_bytes mack.entry.sizes.tag_bits sender maclt msg }
{
    let message = mack.sizes.num_tags().unwrap() as u8;
    let table = maclt::nt(maclt).unwrap() as u8;
    let timing = timing::list(mack, message);
    if table != message {
        return Walked {
            slots: Verdict::TagsDiffer { table, message },
            timing,
        };
    }
    Walked {
        slots: slots::walk_tags(mack, sender, maclt, msg, message),
        timing,
    }
}

// The first tag that breaks its slot, or that all fit, or that the table's nt and the message's differ; and the tags that hold ADKD 4, whether or not the slots
// fit. `msg` is 0 in the first half of a minute and 1 in the second. Refuses 1 for a message of other than 60 bytes, 2 for the sender, 7 for a size that no
// KROOT gives or a message number above 1, 8 for an ID that no table has.
pub fn walk(mack: Mack<'_>, sender: u8, maclt: u8, msg: usize) -> Result<Walked, Refusal>
    ensures { WalkSlots mack.entry.msg.now mack.entry.sizes.key_bytes mack.entry.sizes.tag_bits sender maclt msg result }
{
    check(mack, sender, maclt, msg)?;
    Ok(judge(mack, sender, maclt, msg))
}

// There is no message to judge: nothing, where sizes and ID are not refused.
fn no_message(sizes: Sizes, maclt: u8, msg: usize) -> Result<Option<Walked>, Refusal>
    ensures { meaning_complete result
        ≡ unjudged (answered (refusal_of (table_checks sizes.key_bytes sizes.tag_bits maclt msg)) nothing) }
{
    check_table(sizes, maclt, msg)?;
    Ok(None)
}

// The two lent slices are two parameters, as `subframe::feed` has them.
// `walk` of the MACK message that the collector has put together of a satellite: the 60 bytes, the sender and the message number are the collector's, so that
// no caller can mix them up. Nothing while the pair is not complete, and of a silent one. Refuses 1 for lent bytes other than 540 and 2,160, 12 for the record,
// 2 for the satellite, 7 for a size that no KROOT gives, 8 for an ID that no table has.
pub fn walk_complete<'a>(
    collector: CollectSubframe,
    hkroot: &'a [u8],
    mack: &'a [u8],
    satellite: u8,
    sizes: Sizes,
    maclt: u8,
) -> Result<Option<Walked>, Refusal>
    ensures { WalkComplete collector hkroot.now mack.now satellite sizes.key_bytes sizes.tag_bits maclt result }
{
    let msg = (collector.subframe % 2) as usize;
    match subframe::came_out(collector, hkroot, mack, satellite)? {
        None => no_message(sizes, maclt, msg),
        Some(Pair::Silent { week: _, time: _ }) => no_message(sizes, maclt, msg),
        Some(Pair::Complete { week: _, time: _ }) => {
            let message = Mack {
                msg: subframe::view(collector, hkroot, mack, Message::Mack, satellite),
                sizes,
            };
            Ok(Some(walk(message, satellite, maclt, msg)?))
        }
    }
}
