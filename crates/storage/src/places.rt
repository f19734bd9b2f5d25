// The places of the MACK store and their messages: what is in range, the ring, and where a message goes.
ghost use Rattle.std.specs.Prelude.{◌≡◌, ◌&&◌, ◌+◌, ◌≤◌, ◌<◌, length};
ghost use Rattle.layouts.specs.Answer.{refusal as refusal_of};
ghost use Rattle.layouts.specs.Refusals.{refused_by};
ghost use Rattle.storage.specs.Store.{entry, legal_entry, legal_entries, status_checks, next_place};

use layouts::refusal::Refusal;

// Where a message goes: a place, and how many messages are there before it.
#[derive(Clone, Copy)]
pub(crate) struct Slot {
    pub place: usize,
    pub number: usize,
}

impl Slot {
    // The message's number among all.
    pub(crate) fn entry(self) -> usize
        requires { (self.place < 12) × (self.number < 36) }
        ensures { result ≡ entry 36 self.place self.number }
    {
        36 * self.place + self.number
    }
}

// A message's satellite and status are in range.
fn entry_legal(satellite: u8, status: u8) -> bool
    ensures { result ≡ legal_entry satellite status }
{
    1 <= satellite && satellite <= 36 && status <= 3
}

// `many` messages from number `at` on are in range: a fold to its end, which the compiler makes one over sixteen messages at a time, as `all` is not.
pub(crate) fn entries_legal(satellites: &[u8], statuses: &[u8], at: usize, many: usize) -> bool
    requires { (at + many ≤ length satellites.now) × (at + many ≤ length statuses.now) }
    ensures { result ≡ legal_entries satellites.now statuses.now at many }
{
    satellites[at..at + many]
        .iter()
        .zip(&statuses[at..at + many])
        .fold(true, |good, (satellite, status)| {
            good & entry_legal(*satellite, *status)
        })
}

// The place after `p` in the ring.
pub(crate) fn next_place(p: usize) -> usize
    requires { p < 12 }
    ensures { result ≡ next_place 12 p }
{
    if p == 11 { 0 } else { p + 1 }
}

// 7 for a status above 3, then 10 for a full place.
pub(crate) fn check_status(status: u8, full: bool) -> Result<(), Refusal>
    ensures { refused_by result ≡ refusal_of (status_checks status full) }
{
    if 3 < status {
        return Err(Refusal::Argument);
    }
    if full {
        return Err(Refusal::PlaceFull);
    }
    Ok(())
}
