// The DSM collector. The records are laid out as C has them (`repr(C)`, tests/c and tests/differential), so that each has a `From` of its own each way.
ghost use Rattle.std.specs.Prelude.{◌≡◌};
ghost use Rattle.probe.specs.Dsm.{collector_of, record_of, DsmNew, DsmFeed, DsmView, DsmViewAnswer};

use crate::tell;
use crate::tell::Told;
use dsms::dsm::CollectDsm;

#[repr(C)]
#[derive(Clone, Copy)]
pub struct DsmRecord {
    pub id: u8,
    pub came: bool,
    pub held: [bool; 16],
    pub done: bool,
}

#[repr(C)]
#[derive(Clone, Copy)]
pub struct DsmCalled {
    pub collector: DsmRecord,
    pub answer: Told,
}

impl From<DsmRecord> for CollectDsm {
    ghost from_gives = { λ from r. r ≡ collector_of from };

    fn from(from: DsmRecord) -> CollectDsm {
        let held = from.held;
        CollectDsm {
            id: from.id,
            came: from.came,
            held,
            done: from.done,
        }
    }
}

impl From<CollectDsm> for DsmRecord {
    ghost from_gives = { λ from r. r ≡ record_of from };

    fn from(from: CollectDsm) -> DsmRecord {
        let held = from.held;
        DsmRecord {
            id: from.id,
            came: from.came,
            held,
            done: from.done,
        }
    }
}

// A new record.
#[unsafe(no_mangle)]
pub extern "C" fn probe_dsm_new() -> DsmRecord
    ensures { DsmNew result }
{
    DsmRecord::from(dsms::dsm::new())
}

// `dsm::feed`.
#[unsafe(no_mangle)]
pub extern "C" fn probe_dsm_feed(
    collector: DsmRecord,
    dsm: &mut [u8],
    header: u8,
    block: &[u8],
) -> DsmCalled
    ensures { DsmFeed collector dsm.old header block.now result dsm.new }
{
    let before = CollectDsm::from(collector);
    let fed = dsms::dsm::feed(before, dsm, header, block);
    let answer = fed.answer;
    DsmCalled {
        collector: DsmRecord::from(fed.collector),
        answer: tell::dsm(answer),
    }
}

// `dsm::view`, its bytes to the front of `out`, with the answer of the question beside it.
#[unsafe(no_mangle)]
pub extern "C" fn probe_dsm_view(collector: DsmRecord, dsm: &[u8], out: &mut [u8]) -> Told
    ensures { DsmView collector dsm.now out.old result out.new }
{
    let from = CollectDsm::from(collector);
    let shown = dsms::dsm::view_shown(from, dsm);
    let part = dsms::dsm::view(from, dsm);
    tell::copy(part, out);
    tell::dsm_shown(shown)
}

// `dsm_view::view_answer`: what the struct `Dsm` holds, without its bytes.
#[unsafe(no_mangle)]
pub extern "C" fn probe_dsm_view_answer(collector: DsmRecord, dsm: &[u8]) -> Told
    ensures { DsmViewAnswer collector dsm.now result }
{
    let from = CollectDsm::from(collector);
    tell::dsm(dsms::dsm_view::view_answer(from, dsm))
}
