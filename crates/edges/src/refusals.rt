// Single calls: how many pages are consumed, and what is refused.
use crate::pages::stamp;
use crate::print;
use layouts::gst::Stamp;
use page_replay::replay;
use page_replay::replay::PageReplay;
use std::io;

fn fresh() -> PageReplay {
    replay::new(stamp(3, 1200, 60)).replay
}

// A call that is lent memory of these lengths, at most 540, 2,161 and 208 bytes: by slices, since of an array of a constant parameter's length it is not proved
// that the whole of it is a slice.
fn lent<R: Print>(
    rt: &R,
    name: &str,
    lengths: [usize; 3],
    record: PageReplay,
    pages: &[u8],
    budget: usize,
) -> io::Result<()> {
    let [h, m, d] = lengths;
    let mut hkroot = [0u8; 540];
    let mut mack = [0u8; 2161];
    let mut dsm = [0u8; 208];
    let done = replay::replay(
        record,
        &mut hkroot[..h.min(540)],
        &mut mack[..m.min(2161)],
        &mut dsm[..d.min(208)],
        pages,
        budget,
    );
    print::call(rt, name, done.answer)
}

fn bytes<R: Print>(rt: &R, name: &str, pages: &[u8], budget: usize) -> io::Result<()> {
    lent(rt, name, [540, 2160, 208], fresh(), pages, budget)
}

// A call with that record, a page and a budget of 1.
fn record<R: Print>(rt: &R, name: &str, record: PageReplay) -> io::Result<()> {
    lent(rt, name, [540, 2160, 208], record, &[0; 30], 1)
}

fn lengths<R: Print>(rt: &R) -> io::Result<()> {
    let page = [0u8; 30];
    lent(rt, "539 HKROOT bytes", [539, 2160, 208], fresh(), &page, 1)?;
    lent(rt, "2,161 MACK bytes", [540, 2161, 208], fresh(), &page, 1)?;
    let name = "207 DSM bytes, and a budget of 16";
    lent(rt, name, [540, 2160, 207], fresh(), &page, 16)
}

fn totals<R: Print>(rt: &R) -> io::Result<()> {
    let mut a = fresh();
    a.pages = 4611686018427387904;
    record(rt, "2^62 pages", a)?;
    a.pages = 4611686018427387905;
    record(rt, "more than 2^62 pages", a)?;
    let mut b = fresh();
    b.dsms_done = 18446744073709551615;
    record(rt, "2^64 - 1 DSMs", b)?;
    let mut c = fresh();
    c.silent = 4611686018427387905;
    record(rt, "more than 2^62 silent subframes", c)
}

fn ranges<R: Print>(rt: &R) -> io::Result<()> {
    let mut a = fresh();
    a.next.satellite = 37;
    record(rt, "satellite 37 in the record", a)?;
    let mut b = fresh();
    b.next.week = 4096;
    record(rt, "week 4,096 in the record", b)?;
    let mut c = fresh();
    c.next.time = 604800;
    record(rt, "time 604,800 in the record", c)
}

fn begun<R: Print>(rt: &R, name: &str, first: Stamp) -> io::Result<()> {
    print::call(rt, name, replay::new(first).answer.map(|()| 0))
}

fn starts<R: Print>(rt: &R) -> io::Result<()> {
    begun(rt, "satellite 0", stamp(0, 4096, 604800))?;
    begun(rt, "satellite 37", stamp(37, 4096, 604800))?;
    begun(rt, "week 4,096", stamp(36, 4096, 604800))?;
    begun(rt, "time 604,800", stamp(36, 4095, 604800))?;
    begun(rt, "the last second", stamp(36, 4095, 604799))
}

fn pages<R: Print>(rt: &R) -> io::Result<()> {
    bytes(rt, "29 bytes", &[0; 29], 15)?;
    bytes(rt, "31 bytes", &[0; 31], 15)?;
    bytes(rt, "449 bytes", &[0; 449], 15)?;
    bytes(rt, "450 bytes", &[0; 450], 15)?;
    let sixteen = [0u8; 480];
    bytes(rt, "480 bytes", &sixteen, 15)?;
    bytes(rt, "480 bytes, budget 3", &sixteen, 3)?;
    bytes(rt, "480 bytes, budget 0", &sixteen, 0)?;
    bytes(rt, "480 bytes, budget 16", &sixteen, 16)
}

pub(crate) fn all<R: Print>(rt: &R) -> io::Result<()> {
    pages(rt)?;
    lengths(rt)?;
    totals(rt)?;
    ranges(rt)?;
    starts(rt)
}
