// The listing in pieces: the input comes in pieces of any sizes, and so does what is to be printed.
ghost use Rattle.std.specs.Prelude.{◌≡◌, true, false, ◌&&◌, List, [], ℕ, ◌+◌, ◌≤◌, length, take, leb, eqb};
ghost use Rattle.layouts.specs.Answer.{refusal};
ghost use Rattle.layouts.specs.Refusals.{refused_by};
ghost use Rattle.layouts.specs.Lists.{put as put_of};
ghost use Rattle.page_replay.specs.ReplayPromises.{outcome as replay_outcome};
ghost use Rattle.listing.specs.Pieces.{are_whole, record_checks};
ghost use Rattle.listing.specs.PiecePromises.{state, outcome, BeginListing, FeedListing, FinishListing};
ghost use Rattle.listing.specs.inner.Steps.{fresh, tells, refused_as, told_as, Ready};

use crate::put;
use layouts::gst::Stamp;
use layouts::refusal::Refusal;
use page_replay::replay;
use page_replay::replay::{PageReplay, Replayed};
use texts::arguments;
use texts::lines::Counted;

// A listing between two calls: the page replay, and the bytes of a page that is not whole yet. Once it is over, since the arguments were refused, nothing more
// is written. The record goes by value, in fixed memory: so an array and how many of its bytes are held.
#[derive(Clone, Copy)]
pub struct Listing {
    pub replay: PageReplay,
    pub page: [u8; 30],
    pub held: usize,
    pub over: bool,
}

// How many bytes of the piece were taken, and how many were written to the lent output, from its start on.
#[derive(Clone, Copy)]
pub struct Told {
    pub taken: usize,
    pub written: usize,
}

#[derive(Clone, Copy)]
pub struct ListingStep {
    pub listing: Listing,
    pub answer: Result<Told, Refusal>,
}

impl Listing {
    // The record as it is, and why the call is refused.
    fn refused(self, refusal: Refusal) -> ListingStep
        ensures { (h m d o : List ℕ) → outcome result h m d o ≡ refused_as (state self h m d) refusal o }
    {
        ListingStep {
            listing: self,
            answer: Err(refusal),
        }
    }

    // The record as it is, and what was taken and written.
    fn told(self, taken: usize, written: usize) -> ListingStep
        ensures { (h m d o : List ℕ) → outcome result h m d o ≡ told_as (state self h m d) taken written o }
    {
        ListingStep {
            listing: self,
            answer: Ok(Told { taken, written }),
        }
    }
}

// A listing of no pages yet.
fn none(stamp: Stamp, over: bool) -> Listing
    ensures { state result [] [] [] ≡ fresh stamp.satellite stamp.week stamp.time over }
{
    Listing {
        replay: replay::new(stamp).replay,
        page: [0; 30],
        held: 0,
        over,
    }
}

// The record stands beside a refusal too: then it is of this time, which no page has.
const NO_STAMP: Stamp = Stamp {
    satellite: 0,
    week: 0,
    time: 0,
};

// Begins a listing from how many arguments there are and the first three. Where the arguments are refused that is written, and the listing is over. Refuses 1
// for a lent output of less than 256 bytes, as the others do.
pub fn begin(many: usize, satellite: &[u8], week: &[u8], time: &[u8], out: &mut [u8]) -> ListingStep
    ensures { BeginListing many satellite.now week.now time.now out.old result out.new }
{
    if out.len() < 256 {
        return none(NO_STAMP, false).refused(Refusal::SliceLength);
    }
    match arguments::read(many, satellite, week, time) {
        Err(refusal) => {
            let written = put::refused(out, refusal);
            none(NO_STAMP, true).told(0, written)
        }
        Ok(stamp) => none(stamp, false).told(0, 0),
    }
}

// The lent memory is three slices in each call, as `page_replay` has it.
// What is refused of a record that is not over, beside the room. A replay of no pages looks at all of it.
fn check(
    listing: Listing,
    hkroot: &mut [u8],
    mack: &mut [u8],
    dsm: &mut [u8],
) -> Result<(), Refusal>
    requires { listing.over ≡ false }
    ensures value { refused_by result ≡ refusal (record_checks (state listing hkroot.old mack.old dsm.old)) }
    ensures hkroot_unchanged { (hkroot.new ≡ hkroot.old) × (mack.new ≡ mack.old) × (dsm.new ≡ dsm.old) }
{
    replay::replay(listing.replay, hkroot, mack, dsm, &listing.page, 0).answer?;
    if 29 < listing.held {
        return Err(Refusal::RecordRange);
    }
    Ok(())
}

// Writes what a call of the page replay completed, and keeps the rest.
fn tell(
    listing: Listing,
    page: [u8; 30],
    held: usize,
    taken: usize,
    done: Replayed,
    out: &mut [u8],
) -> ListingStep
    requires { 256 ≤ length out.old }
    ensures { (h m d : List ℕ) → outcome result h m d out.new
        ≡ tells (state listing h m d) (record { page = page; held = held; taken = taken })
        (replay_outcome done h m d) out.old }
{
    if let Err(refusal) = done.answer {
        return listing.refused(refusal);
    }
    let written = put::completed(out, listing.replay.next.satellite, done.subframe, done.dsm);
    let next = Listing {
        replay: done.replay,
        page,
        held,
        over: false,
    };
    next.told(taken, written)
}

// Whole pages of the piece, fifteen at most.
fn feed_pages(
    listing: Listing,
    hkroot: &mut [u8],
    mack: &mut [u8],
    dsm: &mut [u8],
    piece: &[u8],
    out: &mut [u8],
) -> ListingStep
    requires { Ready (state listing hkroot.old mack.old dsm.old) out.old
        × (are_whole (state listing hkroot.old mack.old dsm.old) piece.now ≡ true) }
    ensures { FeedListing listing hkroot.old mack.old dsm.old piece.now out.old result
        hkroot.new mack.new dsm.new out.new }
{
    let taken = 30 * (piece.len() / 30).min(15);
    let done = replay::replay(listing.replay, hkroot, mack, dsm, piece, 15);
    tell(listing, listing.page, 0, taken, done, out)
}

// The first `many` bytes of the piece go into the page, behind the `held` that it has.
fn fill(page: [u8; 30], held: usize, piece: &[u8], many: usize) -> [u8; 30]
    requires { (held + many ≤ 30) × (many ≤ length piece.now) }
    ensures value { result ≡ put_of page held many (take many piece.now) }
    ensures page_len { length page ≡ 30 }
{
    let mut page = page;
    let end = held + many;
    page[held..end].copy_from_slice(&piece[..many]);
    page
}

// What the held page has room for, and the page where it is then whole.
fn feed_page(
    listing: Listing,
    hkroot: &mut [u8],
    mack: &mut [u8],
    dsm: &mut [u8],
    piece: &[u8],
    out: &mut [u8],
) -> ListingStep
    requires { Ready (state listing hkroot.old mack.old dsm.old) out.old
        × (are_whole (state listing hkroot.old mack.old dsm.old) piece.now ≡ false) }
    ensures { FeedListing listing hkroot.old mack.old dsm.old piece.now out.old result
        hkroot.new mack.new dsm.new out.new }
{
    let taken = piece.len().min(30 - listing.held);
    let page = fill(listing.page, listing.held, piece, taken);
    let many = listing.held + taken;
    let done = replay::replay(listing.replay, hkroot, mack, dsm, &page[..many], 15);
    tell(listing, page, many % 30, taken, done, out)
}

// Whether whole pages of a piece of that many bytes are fed as they are.
fn are_whole(held: usize, many: usize) -> bool
    ensures { result ≡ (eqb held 0 && leb 30 many) }
{
    held == 0 && 30 <= many
}

// Takes some of the piece, all of it where it is short, and writes what that completes. Refuses 1 for memory of other lengths too, and 12 for the record.
pub fn feed(
    listing: Listing,
    hkroot: &mut [u8],
    mack: &mut [u8],
    dsm: &mut [u8],
    piece: &[u8],
    out: &mut [u8],
) -> ListingStep
    ensures { FeedListing listing hkroot.old mack.old dsm.old piece.now out.old result
        hkroot.new mack.new dsm.new out.new }
{
    if out.len() < 256 {
        return listing.refused(Refusal::SliceLength);
    }
    if listing.over {
        return listing.told(piece.len(), 0);
    }
    if 29 < listing.held {
        return listing.refused(check(listing, hkroot, mack, dsm).unwrap_err());
    }
    if are_whole(listing.held, piece.len()) {
        return feed_pages(listing, hkroot, mack, dsm, piece, out);
    }
    feed_page(listing, hkroot, mack, dsm, piece, out)
}

// Writes the last line.
pub fn finish(
    listing: Listing,
    hkroot: &mut [u8],
    mack: &mut [u8],
    dsm: &mut [u8],
    out: &mut [u8],
) -> ListingStep
    ensures { FinishListing listing hkroot.old mack.old dsm.old out.old result
        hkroot.new mack.new dsm.new out.new }
{
    if out.len() < 256 {
        return listing.refused(Refusal::SliceLength);
    }
    if listing.over {
        return listing.told(0, 0);
    }
    if let Err(refusal) = check(listing, hkroot, mack, dsm) {
        return listing.refused(refusal);
    }
    let record = listing.replay;
    let counts = Counted {
        pages: record.pages,
        skipped: record.skipped,
        subframes: record.subframes_done,
        dsms: record.dsms_done,
        silent: record.silent,
        tail: listing.held,
    };
    let written = put::totals(out, counts);
    listing.told(0, written)
}
