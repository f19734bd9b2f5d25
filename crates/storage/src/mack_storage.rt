// MACK messages, kept until their keys come: 36 for each of 12 times.
ghost use Rattle.std.specs.Prelude.{◌≡◌, ◌*◌, ◌≤◌, ◌<◌, false, get_or};
ghost use Rattle.layouts.specs.Answer.{refusal};
ghost use Rattle.layouts.specs.Refusals.{refused_by};
ghost use Rattle.storage.specs.Store.{ask_checks, entered, is_time, legal, legal_place, legal_time};
ghost use Rattle.storage.specs.inner.Places.{Admits, Reaches, FindsFirst};
ghost use Rattle.storage.specs.StorePromises.{storage_of, asked_of, call, NewStorage, StoreMack, GetMack};

use crate::places;
use crate::places::Slot;
use layouts::gst::Stamp;
use layouts::refusal::Refusal;

// What a place has: a time or none, and so many messages. What stands beside no time does not matter, and is kept: so no Option, which has no room for it.
#[derive(Clone, Copy)]
pub struct Place {
    pub timed: bool,
    pub count: u8,
    pub week: u16,
    pub tow: u32,
}

impl Place {
    // Its count and time are in range; without a time it has no message. Lent, not copied: a copy is one load of eight bytes, and behind it the compiler makes
    // the fold over the messages one over eight at a time.
    fn is_legal(&self) -> bool
        ensures { result ≡ legal_time 36 self.now.timed self.now.week self.now.tow self.now.count }
    {
        if self.timed {
            self.count <= 36 && self.week <= 4095 && self.tow <= 604799
        } else {
            self.count == 0
        }
    }

    fn has_time(&self, week: u16, time: u32) -> bool
        ensures { result ≡ is_time self.now.timed self.now.week self.now.tow week time }
    {
        self.timed && self.week == week && self.tow == time
    }
}

// What each place and each message of it has; the bytes of the messages are lent by the caller.
#[derive(Clone, Copy)]
pub struct MackStorage {
    pub current: u8,
    pub places: [Place; 12],
    // of message j of place p, at 36p + j; two arrays of bytes, of which sixteen of each are checked at a time
    pub satellites: [u8; 432],
    pub statuses: [u8; 432],
}

#[derive(Clone, Copy)]
pub struct MackStored {
    pub storage: MackStorage,
    pub answer: Result<(), Refusal>,
}

// Where a message lies in the lent bytes, and its NMA status.
#[derive(Clone, Copy, Debug, PartialEq, Eq)]
pub struct MackFound {
    pub first: usize,
    pub status: u8,
}

pub fn new() -> MackStorage
    ensures { NewStorage result }
{
    let empty = Place {
        timed: false,
        count: 0,
        week: 0,
        tow: 0,
    };
    MackStorage {
        current: 0,
        places: [empty; 12],
        satellites: [0; 432],
        statuses: [0; 432],
    }
}

impl MackStorage {
    // That a place is below 12 is a fact here and in `places`, and no type: the record has `current` as any byte, and an index would be one again.
    // A place and its messages are in range.
    fn is_place_legal(&self, p: usize) -> bool
        requires { p < 12 }
        ensures { result ≡ legal_place 36 (storage_of self.now) p }
    {
        let place = &self.places[p];
        place.is_legal()
            && places::entries_legal(
                &self.satellites,
                &self.statuses,
                36 * p,
                usize::from(place.count),
            )
    }

    // The record is in range.
    fn is_legal(&self) -> bool
        ensures { result ≡ legal 36 12 (storage_of self.now) }
    {
        self.current < 12 && (0..12).all(|p| self.is_place_legal(p))
    }

    // 12 for the record, then 2, 3, 4 for satellite, week and time.
    fn check(&self, stamp: Stamp) -> Result<(), Refusal>
        ensures { refused_by result ≡ refusal (ask_checks 36 12 (storage_of self.now) (asked_of stamp)) }
    {
        if !self.is_legal() {
            return Err(Refusal::RecordRange);
        }
        stamp.check()
    }

    // Where a message goes: one of another time than the current place's to the next place, which is emptied; one of its own time, or at a place without a
    // time, behind those that are there. Refuses as `check`, then 7 for the status and 10 for a full place.
    fn slot(&self, stamp: Stamp, status: u8) -> Result<Slot, Refusal>
        ensures { Admits 36 12 (storage_of self.now) (asked_of stamp) status result }
    {
        self.check(stamp)?;
        let current = usize::from(self.current);
        let here = &self.places[current];
        let same = here.has_time(stamp.week, stamp.time);
        places::check_status(status, same && here.count == 36)?;
        if here.timed && !same {
            return Ok(Slot {
                place: places::next_place(current),
                number: 0,
            });
        }
        Ok(Slot {
            place: current,
            number: usize::from(here.count),
        })
    }

    // The record with one message more, at its slot; that place has its time from now on.
    fn enter(self, slot: Slot, stamp: Stamp, status: u8) -> MackStorage
        requires { (slot.place < 12) × (slot.number < 36) }
        ensures { storage_of result ≡ entered 36 (storage_of self) slot.place slot.number (asked_of stamp) status }
    {
        let mut next = self;
        let i = slot.entry();
        next.current = slot.place as u8;
        next.places[slot.place] = Place {
            timed: true,
            count: (slot.number + 1) as u8,
            week: stamp.week,
            tow: stamp.time,
        };
        next.satellites[i] = stamp.satellite;
        next.statuses[i] = status;
        next
    }

    // The lowest-numbered place with that time.
    fn lowest(&self, week: u16, time: u32) -> Option<usize>
        ensures { Reaches 12 (storage_of self.now) week time result }
    {
        self.places
            .iter()
            .position(|place| place.has_time(week, time))
    }

    // The first message of the satellite in a place.
    fn find(&self, p: usize, satellite: u8) -> Option<MackFound>
        requires { (p < 12) × (get_or (storage_of self.now).counts p 0 ≤ 36) }
        ensures { FindsFirst 36 (storage_of self.now) p satellite result }
    {
        let first = 36 * p;
        let here = &self.satellites[first..first + usize::from(self.places[p].count)];
        let j = here.iter().position(|s| *s == satellite)?;
        let i = first + j;
        Some(MackFound {
            first: 60 * i,
            status: self.statuses[i],
        })
    }
}

// Stores a message. Refuses 1 for lent bytes other than 25,920 or a message other than 60, 12 for the record, 2, 3, 4 for satellite, week and time, 7 for a
// status above 3, then 10 for a full place.
pub fn store(
    storage: MackStorage,
    memory: &mut [u8],
    message: &[u8],
    stamp: Stamp,
    status: u8,
) -> MackStored
    ensures { StoreMack storage memory.old (call message.now stamp status) result memory.new }
{
    if memory.len() != 25920 || message.len() != 60 {
        return MackStored {
            storage,
            answer: Err(Refusal::SliceLength),
        };
    }
    match storage.slot(stamp, status) {
        Err(refusal) => MackStored {
            storage,
            answer: Err(refusal),
        },
        Ok(slot) => {
            let first = 60 * slot.entry();
            memory[first..first + 60].copy_from_slice(message);
            MackStored {
                storage: storage.enter(slot, stamp, status),
                answer: Ok(()),
            }
        }
    }
}

// Where the first message of the satellite at that time lies, with its status. Refuses 12 for the record, 2, 3, 4 for satellite, week and time.
pub fn get(storage: MackStorage, stamp: Stamp) -> Result<Option<MackFound>, Refusal>
    ensures { GetMack storage (asked_of stamp) result }
{
    storage.check(stamp)?;
    let place = storage.lowest(stamp.week, stamp.time);
    Ok(place.and_then(|p| storage.find(p, stamp.satellite)))
}
