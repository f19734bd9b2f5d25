// Functions 100 and 101: a tag at its slot, and the tags that hold ADKD 4. A message of function 100 is the sender, the table ID, the
// message's number and then the MACK message.
use crate::found;
use crate::found::Found;
use layouts::mack::{Mack, Sizes};
use layouts::maclt;
use layouts::maclt::MacLTSlot;
use layouts::tag_info::Adkd;
use recorder::slots::{TagField, Verdict};
use recorder::{timing, walk};

// Whether the tag stands at 04S, the only slot of ADKD 4.
fn is_timing(id: u8, msg: u8, tag: usize) -> bool {
    matches!(
        maclt::get_maclt_entry(id, usize::from(msg), tag),
        Ok(MacLTSlot::Fixed {
            adkd: Adkd::InavTiming,
            ..
        })
    )
}

fn exchanged(prnd: u8, sender: u8) -> u8 {
    if prnd == 255 {
        return sender;
    }
    if prnd == sender {
        return 255;
    }
    prnd
}

// The low half of one byte before the high half of another (`across` of `layouts` is its own); and so of the high and the low halves.
fn low_high(a: u8, b: u8) -> u8 {
    a % 16 * 16 + b / 16
}

fn high_high(a: u8, b: u8) -> u8 {
    a / 16 * 16 + b / 16
}

fn low_low(a: u8, b: u8) -> u8 {
    a % 16 * 16 + b % 16
}

// The byte at half byte `at` of the message, exchanged.
fn exchange_at(msg: &mut [u8], at: usize) {
    let i = at / 2;
    if msg.len() <= i + 1 {
        return;
    }
    let sender = msg[0];
    let a = msg[i];
    let b = msg[i + 1];
    if at % 2 == 0 {
        msg[i] = exchanged(a, sender);
        return;
    }
    let prnd = exchanged(low_high(a, b), sender);
    msg[i] = high_high(a, prnd);
    msg[i + 1] = low_low(prnd, b);
}

// Tag `n`, whose info starts at half byte `at` of the message.
fn exchange_tag(msg: &mut [u8], n: usize, at: usize) {
    if msg.len() < 3 {
        return;
    }
    let id = msg[1];
    let number = msg[2];
    if is_timing(id, number, n) {
        exchange_at(msg, at);
    }
}

// The Rust asks for the sender's number in PRND at 04S, `recorder` for 255 (request 4 of document 02), and each calls the other's value
// wrong. A record has the message that the Rust was asked about: here, and nowhere else, the two are exchanged, at 04S alone.
pub(crate) fn exchange(msg: &mut [u8], tag_bits: usize) {
    if 40 < tag_bits {
        return;
    }
    let q = tag_bits / 4;
    // A loop with a call that changes the message.
    for n in 1..10 {
        exchange_tag(msg, n, 6 + 4 * n + (n + 1) * q);
    }
}

fn field_number(field: TagField) -> u64 {
    match field {
        TagField::Adkd => 1,
        TagField::Prnd => 2,
    }
}

// The verdict on a message of which only tag `n` can break its slot.
fn judged(slots: Verdict, n: usize) -> Option<Found> {
    match slots {
        Verdict::AllFit => Some(found::value(0)),
        Verdict::Breaks { tag, field } => Some(found::values(
            field_number(field),
            0,
            0,
            usize::from(tag) == n,
        )),
        Verdict::TagsDiffer { .. } => None,
    }
}

// 100: tag `n` at its slot.
pub(crate) fn slot(msg: &[u8], sizes: Sizes, n: usize) -> Option<Found> {
    if msg.len() != 63 {
        return None;
    }
    let mack = Mack {
        msg: &msg[3..],
        sizes,
    };
    match walk::walk(mack, msg[0], msg[1], usize::from(msg[2])) {
        Ok(walked) => judged(walked.slots, n),
        Err(refusal) => Some(found::refused(refusal, true)),
    }
}

// 101: the tags, nine bytes with zeros behind. No refusal is recorded.
pub(crate) fn timing_tags(mack: Mack<'_>, expected: &[u8]) -> Found {
    match timing::timing_tags(mack) {
        Ok(timing) => found::values(
            u64::from(timing.count),
            0,
            0,
            timing.tags.as_slice() == expected,
        ),
        Err(refusal) => found::refused(refusal, false),
    }
}
