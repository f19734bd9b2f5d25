// A.6.5.1: two tags of satellite 2, set into a MACK message of 40-bit tags and a key of 16 bytes.
use crate::tally::Tally;
use crate::{found, published, recorded_mack};
use layouts::mack::{Mack, Sizes};
use std::io;
use texts::hexadecimal;

pub(crate) const SIZES: Sizes = Sizes {
    key_bytes: 16,
    tag_bits: 40,
};

// Tag 0, and behind MACSEQ, which is not published, COP 15. The later tag as tag 3, a place that is not published, with
// PRND 2, ADKD 4 and COP 15. The other tags and the key are zeros.
pub(crate) fn build(msg: &mut [u8]) {
    let _ = hexadecimal::read(msg, 0, b"E37BC4F858000F");
    let _ = hexadecimal::read(msg, 21, b"7BB238C883024F");
}

fn tag_0<R: Print>(rt: &R, mack: Mack<'_>, t: Tally) -> io::Result<Tally> {
    let t = published::number(rt, "A.6.5.1 tag 0", mack.tag0(), 0xE37BC4F858, t)?;
    published::number(rt, "A.6.5.1 COP of tag 0", mack.cop(), 15, t)
}

fn tag_3<R: Print>(rt: &R, mack: Mack<'_>, t: Tally) -> io::Result<Tally> {
    let t = published::number(rt, "A.6.5.1 later tag", mack.tag(3), 0x7BB238C883, t)?;
    let info = mack.tag_info(3);
    let t = published::number(rt, "A.6.5.1 info of the later tag", info, 0x024F, t)?;
    let prnd = recorded_mack::prnd(mack, 3);
    let t = published::held(rt, "A.6.5.1 PRND", prnd == found::value(2), t)?;
    let adkd = recorded_mack::adkd(mack, 3);
    let t = published::held(rt, "A.6.5.1 ADKD", adkd == found::value(4), t)?;
    published::number(rt, "A.6.5.1 COP", mack.tag_cop(3), 15, t)
}

pub(crate) fn checks<R: Print>(rt: &R, t: Tally) -> io::Result<Tally> {
    let mut msg = [0u8; 60];
    build(&mut msg);
    let mack = Mack {
        msg: &msg,
        sizes: SIZES,
    };
    let t = tag_0(rt, mack, t)?;
    tag_3(rt, mack, t)
}
