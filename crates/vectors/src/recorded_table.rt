// Functions 70 to 72: the MAC look-up table.
use crate::found;
use crate::found::Found;
use layouts::maclt;
use layouts::maclt::{AuthObject, MacLTSlot};
use layouts::tag_info::Adkd;

// 16 is no ADKD: a slot is never Reserved.
fn adkd_number(adkd: Adkd) -> u64 {
    match adkd {
        Adkd::InavCed => 0,
        Adkd::InavTiming => 4,
        Adkd::SlowMac => 12,
        Adkd::Reserved => 16,
    }
}

fn object_number(object: AuthObject) -> u64 {
    match object {
        AuthObject::SelfAuth => 0,
        AuthObject::CrossAuth => 1,
    }
}

fn entry(id: u8, msg: usize, tag: usize) -> Found {
    match maclt::get_maclt_entry(id, msg, tag) {
        Ok(MacLTSlot::Flex) => found::value(1),
        Ok(MacLTSlot::Fixed { adkd, object }) => {
            found::values(0, adkd_number(adkd), object_number(object), true)
        }
        Err(refusal) => found::refused(refusal, true),
    }
}

// By the number in the file: `recorded::answer` says why a match.
pub(crate) fn answer(function: u8, id: usize, msg: usize, tag: usize) -> Option<Found> {
    let id = u8::try_from(id).ok()?;
    match function {
        70 => Some(entry(id, msg, tag)),
        72 => Some(Found::from(maclt::nt(id))),
        _ => None,
    }
}

// The FLX tags, four bytes. The record of a refusal leaves them out.
pub(crate) fn flx_indices(id: usize, msg: usize, expected: &[u8]) -> Option<Found> {
    let id = u8::try_from(id).ok()?;
    Some(match maclt::get_flx_indices(id, msg) {
        Ok(flx) => found::values(
            u64::from(flx.count),
            0,
            0,
            flx.indices.as_slice() == expected,
        ),
        Err(refusal) => found::refused(refusal, expected.is_empty()),
    })
}
