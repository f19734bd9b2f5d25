// What this program does with its input: the listing of a page replay. A program that does something else with its own has another job and the same stream.
use crate::failure::Failure;
use listing::pieces;
use listing::pieces::{Listing, ListingStep};

// What a job works in: the memory of the page replay, and room for what it writes.
#[derive(Drop)]
pub(crate) struct Room {
    pub hkroot: [u8; 540],
    pub mack: [u8; 2160],
    pub dsm: [u8; 208],
    pub out: [u8; 256],
}

impl Room {
    pub(crate) fn new() -> Room {
        Room {
            hkroot: [0; 540],
            mack: [0; 2160],
            dsm: [0; 208],
            out: [0; 256],
        }
    }
}

// The job after a call: how many bytes of the piece it took and how many it wrote.
#[derive(Clone, Copy)]
pub(crate) struct Done {
    pub listing: Listing,
    pub taken: usize,
    pub written: usize,
}

impl Done {
    // Whether there is no more to do, whatever comes.
    pub(crate) fn is_over(self) -> bool {
        self.listing.over
    }
}

// A call that is refused ends the job: it comes to that where a total passes 2^62.
fn after(step: ListingStep) -> Result<Done, Failure> {
    let told = step.answer.map_err(|_| Failure::Stuck)?;
    Ok(Done {
        listing: step.listing,
        taken: told.taken,
        written: told.written,
    })
}

pub(crate) fn begin(
    many: usize,
    satellite: &[u8],
    week: &[u8],
    time: &[u8],
    room: &mut Room,
) -> Result<Done, Failure> {
    after(pieces::begin(many, satellite, week, time, &mut room.out))
}

pub(crate) fn feed(job: Done, room: &mut Room, piece: &[u8]) -> Result<Done, Failure> {
    after(pieces::feed(
        job.listing,
        &mut room.hkroot,
        &mut room.mack,
        &mut room.dsm,
        piece,
        &mut room.out,
    ))
}

pub(crate) fn finish(job: Done, room: &mut Room) -> Result<Done, Failure> {
    after(pieces::finish(
        job.listing,
        &mut room.hkroot,
        &mut room.mack,
        &mut room.dsm,
        &mut room.out,
    ))
}
