// The MAC look-up table: which tag of a MACK message authenticates what.
ghost use Rattle.std.specs.Prelude.{◌≡◌, ◌+◌, ◌≤◌, get_or};
ghost use Rattle.layouts.specs.Meaning.{slot_numbers};
ghost use Rattle.layouts.specs.Maclt.{table, row_of, flex, numbers};
ghost use Rattle.layouts.specs.MacltPromises.{MacltEntryRead, FlxIndicesRead, NtRead};
ghost use Rattle.layouts.specs.inner.Code.{row_number, flx_number, coded_slots, one_if_some, KnownRow};

use crate::refusal::Refusal;
use crate::tag_info::Adkd;

// S and E of the table.
#[derive(Clone, Copy, Debug, PartialEq, Eq)]
pub enum AuthObject {
    SelfAuth,
    CrossAuth,
}

// As the Rust has it: a flexible slot is a slot, so that this is no Option.
#[derive(Clone, Copy, Debug, PartialEq, Eq)]
pub enum MacLTSlot {
    Fixed { adkd: Adkd, object: AuthObject },
    Flex,
}

// How many tags are FLX, and their numbers: ascending, zeros behind. An array with its count, since there is no heap.
#[derive(Clone, Copy)]
pub struct FlxIndices {
    pub count: u8,
    pub indices: [u8; 4],
}

// The table, a number for an ID, of which the compiler makes a table of its own: a constant array that is indexed is written
// to the stack at each call. In base 8, from the right: digit 10 m + t is the slot of tag t in message m, 1 for 00S, 2 for 00E,
// 3 for 04S, 4 for 12S, 5 for 12E and 0 for FLX and what the ID has not; in front stands nt (12 is ten). An unknown ID has 0.
fn row(maclt: u8) -> u64
    ensures { result ≡ row_number (row_of maclt table) }
{
    match maclt {
        27 => 0o06_0000243220_0000242220,
        28 => 0o12_2243221220_2242212220,
        31 => 0o05_0000034220_0000024220,
        33 => 0o06_0000524220_0000242320,
        34 => 0o06_0000524200_0000240300,
        35 => 0o06_0000004000_0000040300,
        36 => 0o05_0000054200_0000040300,
        37 => 0o05_0000054220_0000042320,
        38 => 0o05_0000004000_0000040300,
        39 => 0o04_0000004200_0000000300,
        40 => 0o04_0000005220_0000004320,
        41 => 0o04_0000004000_0000000300,
        _ => 0,
    }
}

// The FLX tags of message 0 and then of message 1, four bytes each, from the right. Zeros are no tags. A table like `row`, with other numbers: nothing else is
// in either.
fn flx_tags(maclt: u8) -> u64
    ensures { result ≡ flx_number (row_of maclt table) }
{
    match maclt {
        27 => 0,
        28 => 0,
        31 => 0,
        33 => 0,
        34 => 0x00000001_00000301,
        35 => 0x05040201_00050301,
        36 => 0x00000001_00000301,
        37 => 0,
        38 => 0x00040201_00000301,
        39 => 0x00000001_00000301,
        40 => 0,
        41 => 0x00000201_00000301,
        _ => 0,
    }
}

// A slot by its code. The codes are those of `row` and of nothing else, so no `From`.
fn decoded(code: u8) -> MacLTSlot
    ensures { slot_numbers result ≡ numbers (get_or coded_slots code flex) }
{
    match code {
        1 => MacLTSlot::Fixed {
            adkd: Adkd::InavCed,
            object: AuthObject::SelfAuth,
        },
        2 => MacLTSlot::Fixed {
            adkd: Adkd::InavCed,
            object: AuthObject::CrossAuth,
        },
        3 => MacLTSlot::Fixed {
            adkd: Adkd::InavTiming,
            object: AuthObject::SelfAuth,
        },
        4 => MacLTSlot::Fixed {
            adkd: Adkd::SlowMac,
            object: AuthObject::SelfAuth,
        },
        5 => MacLTSlot::Fixed {
            adkd: Adkd::SlowMac,
            object: AuthObject::CrossAuth,
        },
        _ => MacLTSlot::Flex,
    }
}

fn how_many(a: u64, b: u64, c: u64, d: u64) -> u8
    ensures { result ≡ one_if_some a + one_if_some b + one_if_some c + one_if_some d }
{
    u8::from(a != 0) + u8::from(b != 0) + u8::from(c != 0) + u8::from(d != 0)
}

// The row of an ID, with nt in front. Refuses 8 for an unknown ID.
fn known_row(maclt: u8) -> Result<u64, Refusal>
    ensures { KnownRow maclt result }
{
    let row = row(maclt);
    if row >> 60 == 0 {
        return Err(Refusal::UnknownTable);
    }
    Ok(row)
}

// The slot of tag `num_tag` in message `msg`, 0 or 1.
// Refuses 7 for another message or tag 0, then 8 for an unknown ID, then 9 for a tag that the ID has not.
pub fn get_maclt_entry(maclt: u8, msg: usize, num_tag: usize) -> Result<MacLTSlot, Refusal>
    ensures { MacltEntryRead maclt msg num_tag result }
{
    if 1 < msg {
        return Err(Refusal::Argument);
    }
    if num_tag == 0 {
        return Err(Refusal::Argument);
    }
    let row = known_row(maclt)?;
    if row >> 60 <= num_tag as u64 {
        return Err(Refusal::TagNumber);
    }
    let code = (row >> (3 * (10 * msg + num_tag))) % 8;
    Ok(decoded(code as u8))
}

// The FLX tags of message `msg`, 0 or 1, ascending.
// Refuses 7 for another message, then 8 for an unknown ID.
pub fn get_flx_indices(maclt: u8, msg: usize) -> Result<FlxIndices, Refusal>
    ensures { FlxIndicesRead maclt msg result }
{
    if 1 < msg {
        return Err(Refusal::Argument);
    }
    known_row(maclt)?;
    let tags = flx_tags(maclt) >> (32 * msg);
    let a = tags % 256;
    let b = (tags >> 8) % 256;
    let c = (tags >> 16) % 256;
    let d = (tags >> 24) % 256;
    Ok(FlxIndices {
        count: how_many(a, b, c, d),
        indices: [a as u8, b as u8, c as u8, d as u8],
    })
}

// nt of an ID: its tags are 1 to nt-1. Refuses 8 for an unknown ID.
pub fn nt(maclt: u8) -> Result<u64, Refusal>
    ensures { NtRead maclt result }
{
    Ok(known_row(maclt)? >> 60)
}
