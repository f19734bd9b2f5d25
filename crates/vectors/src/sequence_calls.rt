// The calls of a recorded sequence. An answer is a record's values: 1 and its numbers, or zeros for nothing.
use crate::found;
use crate::found::Found;
use crate::records::{Call, Record};
use dsms::dsm;
use dsms::dsm::{CollectDsm, CompleteDsm};
use layouts::dsm_header::DsmType;
use layouts::gst::Stamp;
use layouts::part::Part;
use layouts::refusal::Refusal;
use storage::mack_storage;
use storage::mack_storage::{MackFound, MackStorage};
use subframes::subframe;
use subframes::subframe::{CollectSubframe, Message, Pair};

// The satellite, week and time that a record's arguments are, where they fit.
fn stamp(r: Record) -> Option<Stamp> {
    Some(Stamp {
        satellite: u8::try_from(r.a).ok()?,
        week: u16::try_from(r.b).ok()?,
        time: u32::try_from(r.c).ok()?,
    })
}

// The Rust knows no silent pair: its answer fits there if the recorded pair is all zeros, and a complete one if it is not.
fn page_found(answer: Result<Option<Pair>, Refusal>, fits: bool, zeros: bool) -> Found {
    match answer {
        Ok(Some(Pair::Complete { week, time })) => {
            found::values(1, u64::from(week), u64::from(time), fits && !zeros)
        }
        Ok(Some(Pair::Silent { week, time })) => {
            found::values(1, u64::from(week), u64::from(time), fits && zeros)
        }
        Ok(None) => found::values(0, 0, 0, fits),
        Err(refusal) => found::refused(refusal, fits),
    }
}

fn block_found(answer: Result<Option<CompleteDsm>, Refusal>, fits: bool) -> Found {
    match answer {
        Ok(Some(complete)) => {
            let kind = match complete.dsm_type {
                DsmType::Kroot => 0,
                DsmType::Pkr => 1,
            };
            found::values(
                1,
                u64::from(complete.id) * 2 + kind,
                complete.bytes as u64,
                fits,
            )
        }
        Ok(None) => found::values(0, 0, 0, fits),
        Err(refusal) => found::refused(refusal, fits),
    }
}

// The records, and what the collectors and the store are lent.
#[derive(Drop)]
pub(crate) struct Held {
    subframe: CollectSubframe,
    dsm: CollectDsm,
    storage: MackStorage,
    lent_hkroot: [u8; 540],
    lent_mack: [u8; 2160],
    lent_dsm: [u8; 208],
    lent_memory: [u8; 25920],
}

impl Held {
    pub(crate) fn new() -> Held {
        Held {
            subframe: subframe::new(),
            dsm: dsm::new(),
            storage: mack_storage::new(),
            lent_hkroot: [0; 540],
            lent_mack: [0; 2160],
            lent_dsm: [0; 208],
            lent_memory: [0; 25920],
        }
    }

    // 89: new records; the lent bytes stay as they are, and must not matter.
    fn anew(&mut self) -> Found {
        self.subframe = subframe::new();
        self.dsm = dsm::new();
        self.storage = mack_storage::new();
        found::value(0)
    }

    // Whether the views of the satellite show the 15 and the 60 expected bytes, or nothing where none are.
    fn shows(&self, satellite: u8, expected: &[u8]) -> bool {
        let (hkroot, mack) = (&self.lent_hkroot, &self.lent_mack);
        let h = subframe::view(self.subframe, hkroot, mack, Message::Hkroot, satellite);
        let m = subframe::view(self.subframe, hkroot, mack, Message::Mack, satellite);
        if expected.len() != 75 {
            return expected.is_empty() && h.is_empty() && m.is_empty();
        }
        h == &expected[..15] && m == &expected[15..]
    }

    // 90: a page.
    fn page(&mut self, call: Call<'_>) -> Option<Found> {
        let stamp = stamp(call.record)?;
        let fed = subframe::feed(
            self.subframe,
            &mut self.lent_hkroot,
            &mut self.lent_mack,
            call.msg,
            stamp,
        );
        self.subframe = fed.collector;
        let fits = self.shows(stamp.satellite, call.expected);
        let zeros = call.expected == [0; 75].as_slice();
        Some(page_found(fed.answer, fits, zeros))
    }

    // 91: a block.
    fn block(&mut self, call: Call<'_>) -> Option<Found> {
        let header = u8::try_from(call.record.a).ok()?;
        let fed = dsm::feed(self.dsm, &mut self.lent_dsm, header, call.msg);
        self.dsm = fed.collector;
        let fits = dsm::view(self.dsm, &self.lent_dsm) == call.expected;
        Some(block_found(fed.answer, fits))
    }

    // 92: a message to store, after its status.
    fn store(&mut self, call: Call<'_>) -> Option<Found> {
        let stamp = stamp(call.record)?;
        let (status, message) = call.msg.split_first()?;
        let stored = mack_storage::store(
            self.storage,
            &mut self.lent_memory,
            message,
            stamp,
            *status,
        );
        self.storage = stored.storage;
        let fits = call.expected.is_empty();
        Some(match stored.answer {
            Ok(()) => found::values(0, 0, 0, fits),
            Err(refusal) => found::refused(refusal, fits),
        })
    }

    // 93: a message that is asked for, with its status.
    fn get(&self, call: Call<'_>) -> Option<Found> {
        let stamp = stamp(call.record)?;
        let is_none = call.msg.is_empty() && call.expected.is_empty();
        Some(match mack_storage::get(self.storage, stamp) {
            Ok(Some(MackFound { first, status })) => {
                let message = Part { first, many: 60 };
                let fits = found::lies_at(&self.lent_memory, message, call.expected);
                found::values(1, u64::from(status), 0, fits)
            }
            Ok(None) => found::values(0, 0, 0, is_none),
            Err(refusal) => found::refused(refusal, is_none),
        })
    }

    // By the number in the file: a match, as in `recorded::answer`.
    pub(crate) fn answer(&mut self, call: Call<'_>) -> Option<Found> {
        match call.record.function {
            89 => Some(self.anew()),
            90 => self.page(call),
            91 => self.block(call),
            92 => self.store(call),
            93 => self.get(call),
            _ => None,
        }
    }
}
