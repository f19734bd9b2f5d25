// A.6.5.1: the two tags of satellite 2 that published_mack.rt sets into a message, judged at the slots of a table. Table and message
// number are ours: 27 and 1, whose slots are 00E 00E 04S 12S 00E. The published later tag stands at 04S.
use crate::tally::Tally;
use crate::{published, published_mack};
use layouts::mack::Mack;
use layouts::refusal::Refusal;
use recorder::slots::{TagField, Verdict};
use recorder::timing::TimingTags;
use recorder::walk;
use recorder::walk::Walked;
use std::io;
use texts::hexadecimal;

// The tags that are not published, of our own making: satellites 7, 19 and the sender itself at 00E, the sender at 12S.
fn build(msg: &mut [u8]) {
    published_mack::build(msg);
    let _ = hexadecimal::read(msg, 7, b"0102030405070F");
    let _ = hexadecimal::read(msg, 14, b"060708090A130F");
    let _ = hexadecimal::read(msg, 28, b"0B0C0D0E0F02CF");
    let _ = hexadecimal::read(msg, 35, b"1011121314020F");
}

// Whether tag 3 breaks its slot, by PRND.
fn breaks(slots: Verdict) -> bool {
    matches!(
        slots,
        Verdict::Breaks {
            tag: 3,
            field: TagField::Prnd
        }
    )
}

// Whether tag 3 alone is listed.
fn listed(timing: TimingTags) -> bool {
    timing.count == 1 && timing.tags == [3, 0, 0, 0, 0, 0, 0, 0, 0]
}

fn walked(msg: &[u8]) -> Result<Walked, Refusal> {
    let mack = Mack {
        msg,
        sizes: published_mack::SIZES,
    };
    walk::walk(mack, 2, 27, 1)
}

// The published tag carries the sender's number where document 02 asks for 255 (docs/DIFFERENCES.md): it breaks its slot. It is listed
// all the same.
fn printed<R: Print>(rt: &R, msg: &[u8], t: Tally) -> io::Result<Tally> {
    let walked = walked(msg);
    let is_broken = walked.is_ok_and(|w| breaks(w.slots));
    let t = published::held(rt, "A.6.5.1 PRND at 04S", is_broken, t)?;
    let is_listed = walked.is_ok_and(|w| listed(w.timing));
    published::held(rt, "A.6.5.1 list of ADKD 4", is_listed, t)
}

// With 255 in that place all tags fit, and the list is the same.
fn with_255<R: Print>(rt: &R, msg: &[u8], t: Tally) -> io::Result<Tally> {
    let walked = walked(msg);
    let all_fit = walked.is_ok_and(|w| matches!(w.slots, Verdict::AllFit));
    let t = published::held(rt, "A.6.5.1 with PRND 255", all_fit, t)?;
    let is_listed = walked.is_ok_and(|w| listed(w.timing));
    published::held(rt, "A.6.5.1 list with PRND 255", is_listed, t)
}

pub(crate) fn checks<R: Print>(rt: &R, t: Tally) -> io::Result<Tally> {
    let mut msg = [0u8; 60];
    let view: &mut [u8] = &mut msg;
    build(view);
    let t = printed(rt, view, t)?;
    let _ = hexadecimal::read(view, 26, b"FF");
    with_255(rt, view, t)
}
