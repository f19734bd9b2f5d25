// Pages, and the runs that they are fed to one by one.
use layouts::gst::Stamp;
use page_replay::replay;
use page_replay::replay::{DsmDone, PageReplay, Replayed, SubframeDone};

// A run, with the memory that it is lent, and what it came to: its record, the last subframe and the last DSM, and how many calls were not
// answered with 1.
#[derive(Drop)]
pub(crate) struct Run {
    pub record: PageReplay,
    pub subframe: Option<SubframeDone>,
    pub dsm: Option<DsmDone>,
    pub wrong: u64,
    lent_hkroot: [u8; 540],
    lent_mack: [u8; 2160],
    lent_dsm: [u8; 208],
}

// In one line, for the many places where a time is written down.
pub(crate) fn stamp(satellite: u8, week: u16, time: u32) -> Stamp {
    Stamp {
        satellite,
        week,
        time,
    }
}

// A page with its HKROOT byte and its last MACK byte; an alert does not count.
fn page(hkroot: u8, last: u8, is_alert: bool) -> [u8; 30] {
    let mut bytes = [0u8; 30];
    bytes[15] = 128;
    if is_alert {
        bytes[0] = 64;
        bytes[15] = 192;
    }
    bytes[17] = hkroot / 4;
    bytes[18] = hkroot % 4 * 64;
    bytes[21] = last / 4;
    bytes[22] = last % 4 * 64;
    bytes
}

// A run that has seen nothing, from a time that is in range.
pub(crate) fn start(stamp: Stamp) -> Run {
    Run {
        record: replay::new(stamp).replay,
        subframe: None,
        dsm: None,
        wrong: 0,
        lent_hkroot: [0; 540],
        lent_mack: [0; 2160],
        lent_dsm: [0; 208],
    }
}

impl Run {
    // What a call of one page adds.
    fn add(&mut self, done: Replayed) {
        self.record = done.replay;
        if done.answer != Ok(1) {
            self.wrong = self.wrong.saturating_add(1);
        }
        self.subframe = done.subframe.or(self.subframe);
        self.dsm = done.dsm.or(self.dsm);
    }

    // One page.
    pub(crate) fn page(&mut self, byte: u8, last: u8, is_alert: bool) {
        let bytes = page(byte, last, is_alert);
        let done = replay::replay(
            self.record,
            &mut self.lent_hkroot,
            &mut self.lent_mack,
            &mut self.lent_dsm,
            &bytes,
            1,
        );
        self.add(done);
    }
}
