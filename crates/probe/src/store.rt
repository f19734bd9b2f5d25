// The MACK store. Its record as C has it: arrays of one length side by side, which a loop over the places takes apart, and satellite, week and time one by one,
// as C hands them over.
ghost use Rattle.std.specs.Prelude.{◌≡◌};
ghost use Rattle.storage.specs.StorePromises.{storage_of as places_of};
ghost use Rattle.probe.specs.Store.{storage_of, StoreNew, StoreStore, StoreGet};

use crate::tell;
use crate::tell::Told;
use layouts::gst::Stamp;
use storage::mack_storage::{MackStorage, Place};

#[repr(C)]
#[derive(Clone, Copy)]
pub struct StoreRecord {
    pub current: u8,
    pub timed: [bool; 12],
    pub weeks: [u16; 12],
    pub tows: [u32; 12],
    pub counts: [u8; 12],
    pub satellites: [u8; 432],
    pub statuses: [u8; 432],
}

#[repr(C)]
#[derive(Clone, Copy)]
pub struct StoreCalled {
    pub storage: StoreRecord,
    pub answer: Told,
}

impl From<StoreRecord> for MackStorage {
    ghost from_gives = { λ from r. places_of r ≡ storage_of from };

    fn from(from: StoreRecord) -> MackStorage {
        let empty = Place {
            timed: false,
            count: 0,
            week: 0,
            tow: 0,
        };
        let mut places = [empty; 12];
        for p in 0..12 {
            places[p] = Place {
                timed: from.timed[p],
                count: from.counts[p],
                week: from.weeks[p],
                tow: from.tows[p],
            };
        }
        let satellites = from.satellites;
        let statuses = from.statuses;
        MackStorage {
            current: from.current,
            places,
            satellites,
            statuses,
        }
    }
}

impl From<MackStorage> for StoreRecord {
    ghost from_gives = { λ from r. storage_of r ≡ places_of from };

    fn from(from: MackStorage) -> StoreRecord {
        let satellites = from.satellites;
        let statuses = from.statuses;
        StoreRecord {
            current: from.current,
            timed: from.places.map(|p| p.timed),
            weeks: from.places.map(|p| p.week),
            tows: from.places.map(|p| p.tow),
            counts: from.places.map(|p| p.count),
            satellites,
            statuses,
        }
    }
}

// A new record.
#[unsafe(no_mangle)]
pub extern "C" fn probe_store_new() -> StoreRecord
    ensures { StoreNew result }
{
    StoreRecord::from(storage::mack_storage::new())
}

// `mack_storage::store`.
#[unsafe(no_mangle)]
pub extern "C" fn probe_store_store(
    storage: StoreRecord,
    memory: &mut [u8],
    message: &[u8],
    satellite: u8,
    week: u16,
    time: u32,
    status: u8,
) -> StoreCalled
    ensures { StoreStore storage memory.old
        (record { message = message.now; asked = record { satellite = satellite; week = week; time = time }; status = status })
        result memory.new }
{
    let before = MackStorage::from(storage);
    let stamp = Stamp {
        satellite,
        week,
        time,
    };
    let stored = storage::mack_storage::store(before, memory, message, stamp, status);
    let answer = stored.answer;
    StoreCalled {
        storage: StoreRecord::from(stored.storage),
        answer: tell::store(answer),
    }
}

// `mack_storage::get`.
#[unsafe(no_mangle)]
pub extern "C" fn probe_store_get(storage: StoreRecord, satellite: u8, week: u16, time: u32) -> Told
    ensures { StoreGet storage (record { satellite = satellite; week = week; time = time }) result }
{
    let stamp = Stamp {
        satellite,
        week,
        time,
    };
    tell::found(storage::mack_storage::get(MackStorage::from(storage), stamp))
}
