// Runs of many pages.
use crate::pages::Run;

// Byte `i` of an HKROOT message with that DSM header and that first byte of its block: by its place, as a page is made of one byte, and no array for each.
fn byte(header: u8, first: u8, i: u8) -> u8 {
    match i {
        0 => 146,
        1 => header,
        2 => first,
        _ => i,
    }
}

impl Run {
    // Loops with calls that change the run, here and below.
    // Pages with a zero field but for its last byte.
    pub(crate) fn alike(&mut self, last: u8, is_alert: bool, many: usize) {
        for _ in 0..many {
            self.page(0, last, is_alert);
        }
    }

    // A subframe with a block.
    fn block(&mut self, header: u8, first: u8) {
        for i in 0..15 {
            self.page(byte(header, first, i), 0, false);
        }
    }

    // The blocks from 0 on, in their subframes; `count` is the high half of the first byte of block 0.
    pub(crate) fn blocks(&mut self, id: u8, count: u8, many: u8) {
        for n in 0..many {
            self.block(id % 16 * 16 + n % 16, count % 16 * 16);
        }
    }
}
