// The tags of a MACK message that speak for the timing data: those that hold ADKD 4.
ghost use Rattle.std.specs.Prelude.{◌≡◌};
ghost use Rattle.recorder.specs.Timing.{tags_listed};
ghost use Rattle.recorder.specs.WalkPromises.{listed, TimingTagsRead};
ghost use Rattle.recorder.specs.inner.Code.{Readable};

use layouts::mack::Mack;
use layouts::refusal::Refusal;

// How many tags hold ADKD 4, and their numbers: ascending, zeros behind. An array with its count, since there is no heap.
#[derive(Clone, Copy)]
pub struct TimingTags {
    pub count: u8,
    pub tags: [u8; 9],
}

// Tags 1 to nt-1 that hold ADKD 4. A `for`: a filter has nothing to collect into where there is no heap.
pub(crate) fn list(mack: Mack<'_>, nt: u8) -> TimingTags
    requires { Readable mack.msg.now mack.sizes.key_bytes mack.sizes.tag_bits nt }
    ensures { listed result ≡ tags_listed mack.entry.msg.now mack.entry.sizes.key_bytes mack.entry.sizes.tag_bits }
{
    let mut tags = [0u8; 9];
    let mut count: u8 = 0;
    for n in 1..nt {
        if mack.adkd_number(usize::from(n)).unwrap() == 4 {
            tags[usize::from(count)] = n;
            count += 1;
        }
    }
    TimingTags { count, tags }
}

// The numbers of the tags that hold ADKD 4, whatever the table and the sender. Refuses 1 for a message of other than 60 bytes, then 7 for a size that no
// KROOT gives.
pub fn timing_tags(mack: Mack<'_>) -> Result<TimingTags, Refusal>
    ensures { TimingTagsRead mack.entry.msg.now mack.entry.sizes.key_bytes mack.entry.sizes.tag_bits result }
{
    if mack.msg.len() != 60 {
        return Err(Refusal::SliceLength);
    }
    let nt = mack.sizes.num_tags()?;
    Ok(list(mack, nt as u8))
}
