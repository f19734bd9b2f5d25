// The recorded answers: what `layouts` and `recorder` answer to a record's call.
use crate::found::Found;
use crate::records::{Call, Record};
use crate::tally::Tally;
use crate::{
    recorded_headers, recorded_kroot, recorded_mack, recorded_pkr, recorded_slots, recorded_table,
    records, replayed,
};
use layouts::bits;
use layouts::mack::{Mack, Sizes};
use std::fs::Files;
use std::io;

// Whether `layouts` cannot be called: its headers and table IDs are single bytes, and the argument of the record is more.
fn is_boundary_only(r: Record) -> bool {
    matches!(r.function, 1..=6 | 70..=72) && 255 < r.a
}

// The bytes of a key of so many bits; 0, which is no key's size, where they are not whole: a number, since it is asked with, and refused, as one.
fn bytes_of(bits: u64) -> u64 {
    if bits % 8 != 0 {
        return 0;
    }
    bits / 8
}

// The Rust counts a key's size in bits, `layouts` in bytes. Here, and nowhere else, a record's becomes bytes: the size that functions
// 50 to 59, 100 and 101 take, and the one that function 15 gives.
// By the number in the file, as `answer`.
fn in_bytes(r: Record) -> Record {
    match r.function {
        50..=59 | 100 | 101 => {
            let a = bytes_of(r.a as u64) as usize;
            Record { a, ..r }
        }
        15 => {
            let [v0, v1, v2] = r.values;
            let values = [bytes_of(v0), v1, v2];
            Record { values, ..r }
        }
        _ => r,
    }
}

// The sizes of its chain that a record of a MACK message has.
fn sizes(r: Record) -> Sizes {
    Sizes {
        key_bytes: r.a,
        tag_bits: r.b,
    }
}

fn mack(call: Call<'_>) -> Mack<'_> {
    Mack {
        msg: call.msg,
        sizes: sizes(call.record),
    }
}

// Of the functions with no recorded output. The numbers are those of the file. A match here and in the readers of each kind, and no table of functions: each
// takes other arguments, and answers another type.
fn answer(call: Call<'_>) -> Option<Found> {
    let r = call.record;
    let f = r.function;
    match f {
        0..=9 => recorded_headers::answer(f, r.a),
        10..=29 => recorded_kroot::answer(f, call.msg),
        30..=49 => recorded_pkr::answer(f, call.msg, r.a),
        50..=69 => recorded_mack::answer(f, mack(call), r.c),
        70..=79 => recorded_table::answer(f, r.a, r.b, r.c),
        80 => Some(Found::from(bits::read_bits(call.msg, r.a, r.b))),
        100 => recorded_slots::slot(call.msg, sizes(r), r.c),
        _ => None,
    }
}

// A number of the file, as in `answer`.
fn with_output(call: Call<'_>) -> Option<Found> {
    let r = call.record;
    let expected = call.expected;
    match r.function {
        59 => Some(recorded_mack::key(mack(call), expected)),
        71 => recorded_table::flx_indices(r.a, r.b, expected),
        101 => Some(recorded_slots::timing_tags(mack(call), expected)),
        _ if expected.is_empty() => answer(call),
        _ => None,
    }
}

// `body` starts with the record's message and output.
fn asked(r: Record, body: &mut [u8]) -> Option<Found> {
    if r.function == 100 {
        recorded_slots::exchange(body, r.b);
    }
    with_output(records::split(r, body)?)
}

pub(crate) fn all<R: Print + Files>(rt: &R, path: &str) -> io::Result<Tally> {
    replayed::all(rt, path, is_boundary_only, in_bytes, asked)
}
