// MACK messages: tags and the key of a TESLA chain. Key sizes are in bytes, tag sizes in bits; both come from the chain's KROOT.
// Every reader refuses 1 for a message of other than 60 bytes, then 7 for a size that no KROOT gives, then 7 for a tag number.
ghost use Rattle.std.specs.Prelude.{◌≡◌, [], ◌∷◌, ◌+◌, ◌-◌, ◌*◌, ◌/◌, ◌%◌, ◌≤◌, ◌<◌, length, take, drop};
ghost use Rattle.layouts.specs.Answer.{refusal as refusal_of};
ghost use Rattle.layouts.specs.Refusals.{refused_by};
ghost use Rattle.layouts.specs.Bits.{field, bytes_from};
ghost use Rattle.layouts.specs.Sizes.{key_sizes, tag_sizes};
ghost use Rattle.layouts.specs.inner.Code.{Room, tag_end};
ghost use Rattle.layouts.specs.Mack.{
  listed,
  sizes_of,
  size_checks,
  mack_checks,
  nt,
  tag_checks,
  InfoRead,
  NumTags,
  Tag0,
  Macseq,
  Cop,
  Tag,
  TagInfo,
  PrndNumber,
  PrndRead,
  AdkdNumber,
  AdkdRead,
  TagCop,
  Key,
};

use crate::bits;
use crate::bits::Field;
use crate::refusal::Refusal;
use crate::tag_info::{Adkd, Prnd};

// The rows of the header and of a tag, from the end of tag 0 or of the tag on; those of a tag together are its info.
pub const MACSEQ: Field = Field {
    first: 0,
    width: 12,
};

pub const PRND: Field = Field { first: 0, width: 8 };

pub const ADKD: Field = Field { first: 8, width: 4 };

pub const COP: Field = Field {
    first: 12,
    width: 4,
};

pub const TAG_INFO: Field = Field {
    first: 0,
    width: 16,
};

// The bits of a message.
pub const BITS: usize = 480;

// The sizes of a chain's keys, in bytes, and of its tags, in bits, as its KROOT gives them.
#[derive(Clone, Copy, Debug, PartialEq, Eq)]
pub struct Sizes {
    pub key_bytes: usize,
    pub tag_bits: usize,
}

// A message, with the sizes of its chain.
#[derive(Clone, Copy)]
pub struct Mack<'a> {
    pub msg: &'a [u8],
    pub sizes: Sizes,
}

// A match for each of the two lists, and not one search in a table: it is a test of one bit, and the edit `size_in_bits_listed` names its numbers.
#[tactic(auto, unfolding(crate::specs::Mack::listed, crate::specs::Sizes::key_sizes))]
fn key_listed(key_bytes: usize) -> bool
    ensures { result ≡ listed key_bytes (sizes_of key_sizes) }
{
    match key_bytes {
        12 | 13 | 14 | 15 | 16 | 20 | 24 | 28 | 32 => true,
        _ => false,
    }
}

#[tactic(auto, unfolding(crate::specs::Mack::listed, crate::specs::Sizes::tag_sizes))]
fn tag_listed(tag_bits: usize) -> bool
    ensures { result ≡ listed tag_bits (sizes_of tag_sizes) }
{
    match tag_bits {
        20 | 24 | 28 | 32 | 40 => true,
        _ => false,
    }
}

#[tactic(auto, using(crate::proofs::Tags::of_sizes))]
impl Sizes {
    // 7 for a size that no KROOT gives.
    fn check(self) -> Result<(), Refusal>
        ensures { refused_by result ≡ refusal_of (size_checks self.key_bytes self.tag_bits) }
    {
        if !key_listed(self.key_bytes) {
            return Err(Refusal::Argument);
        }
        if !tag_listed(self.tag_bits) {
            return Err(Refusal::Argument);
        }
        Ok(())
    }

    // nt, of sizes that are listed.
    #[tactic(auto, unfolding(crate::specs::Mack::nt))]
    fn tags(self) -> usize
        requires { (self.key_bytes ≤ 32) × (self.tag_bits ≤ 40) }
        ensures { result ≡ nt self.key_bytes self.tag_bits }
    {
        (BITS - 8 * self.key_bytes) / (self.tag_bits + TAG_INFO.width)
    }

    // nt: the tags are 0 to nt-1.
    pub fn num_tags(self) -> Result<u64, Refusal>
        ensures { NumTags self.key_bytes self.tag_bits result }
    {
        self.check()?;
        Ok(self.tags() as u64)
    }
}

#[tactic(auto, using(crate::proofs::Tags::of_mack))]
impl<'a> Mack<'a> {
    // 1 for a message of other than 60 bytes, then 7 for a size.
    fn check(self) -> Result<(), Refusal>
        ensures { refused_by result ≡ refusal_of (mack_checks self.entry.msg.now self.entry.sizes.key_bytes self.entry.sizes.tag_bits) }
    {
        if self.msg.len() != 60 {
            return Err(Refusal::SliceLength);
        }
        self.sizes.check()
    }

    // The same, then 7 for a tag other than 1 to nt-1.
    fn check_tag(self, n: usize) -> Result<(), Refusal>
        ensures { refused_by result ≡ refusal_of (tag_checks self.entry.msg.now self.entry.sizes.key_bytes self.entry.sizes.tag_bits n) }
    {
        self.check()?;
        if n == 0 {
            return Err(Refusal::Argument);
        }
        if self.sizes.tags() <= n {
            return Err(Refusal::Argument);
        }
        Ok(())
    }

    // The bits of tag `n`.
    fn tag_at(self, n: usize) -> u64
        requires { Room self.msg.now self.sizes.tag_bits n }
        ensures { result ≡ field self.entry.msg.now (n * (self.entry.sizes.tag_bits + 16)) self.entry.sizes.tag_bits }
    {
        let tag_bits = self.sizes.tag_bits;
        bits::long(self.msg, n * (tag_bits + TAG_INFO.width), tag_bits)
    }

    // The field `at` behind tag `n`.
    fn info_at(self, n: usize, at: Field) -> u64
        requires { (at.first + at.width ≤ 16) × Room self.msg.now self.sizes.tag_bits n }
        ensures { result ≡ field self.entry.msg.now (tag_end self.entry.sizes.tag_bits n + at.first) at.width }
    {
        let tag_bits = self.sizes.tag_bits;
        let end = n * (tag_bits + TAG_INFO.width) + tag_bits;
        bits::long(self.msg, end + at.first, at.width)
    }

    // The field `at` behind a tag that is not refused.
    fn info(self, n: usize, at: Field) -> Result<u64, Refusal>
        requires { at.first + at.width ≤ 16 }
        ensures { InfoRead self.entry.msg.now self.entry.sizes.key_bytes self.entry.sizes.tag_bits n at.first at.width result }
    {
        self.check_tag(n)?;
        Ok(self.info_at(n, at))
    }

    // Tag 0.
    pub fn tag0(self) -> Result<u64, Refusal>
        ensures { Tag0 self.entry.msg.now self.entry.sizes.key_bytes self.entry.sizes.tag_bits result }
    {
        self.check()?;
        Ok(self.tag_at(0))
    }

    // MACSEQ, 12 bits.
    pub fn macseq(self) -> Result<u64, Refusal>
        ensures { Macseq self.entry.msg.now self.entry.sizes.key_bytes self.entry.sizes.tag_bits result }
    {
        self.check()?;
        Ok(self.info_at(0, MACSEQ))
    }

    // COP of tag 0. Two lines like `macseq`, and no call of one more function is shorter.
    pub fn cop(self) -> Result<u64, Refusal>
        ensures { Cop self.entry.msg.now self.entry.sizes.key_bytes self.entry.sizes.tag_bits result }
    {
        self.check()?;
        Ok(self.info_at(0, COP))
    }

    // Tag n, 1 to nt-1.
    pub fn tag(self, n: usize) -> Result<u64, Refusal>
        ensures { Tag self.entry.msg.now self.entry.sizes.key_bytes self.entry.sizes.tag_bits n result }
    {
        self.check_tag(n)?;
        Ok(self.tag_at(n))
    }

    // The info of tag n: PRND, ADKD and COP as one number of 16 bits.
    pub fn tag_info(self, n: usize) -> Result<u64, Refusal>
        ensures { TagInfo self.entry.msg.now self.entry.sizes.key_bytes self.entry.sizes.tag_bits n result }
    {
        self.info(n, TAG_INFO)
    }

    // PRND of tag n, as it stands.
    pub fn prnd_number(self, n: usize) -> Result<u64, Refusal>
        ensures { PrndNumber self.entry.msg.now self.entry.sizes.key_bytes self.entry.sizes.tag_bits n result }
    {
        self.info(n, PRND)
    }

    // PRND of tag n. Here and below a name by a match, as in `nma_header`: each is read at one place.
    pub fn prnd(self, n: usize) -> Result<Prnd, Refusal>
        ensures { PrndRead self.entry.msg.now self.entry.sizes.key_bytes self.entry.sizes.tag_bits n result }
    {
        Ok(match self.prnd_number(n)? {
            v @ 1..=36 => Prnd::GalileoSvid(v as u8),
            255 => Prnd::GalileoConstellation,
            _ => Prnd::Reserved,
        })
    }

    // ADKD of tag n, as it stands.
    pub fn adkd_number(self, n: usize) -> Result<u64, Refusal>
        ensures { AdkdNumber self.entry.msg.now self.entry.sizes.key_bytes self.entry.sizes.tag_bits n result }
    {
        self.info(n, ADKD)
    }

    // ADKD of tag n.
    pub fn adkd(self, n: usize) -> Result<Adkd, Refusal>
        ensures { AdkdRead self.entry.msg.now self.entry.sizes.key_bytes self.entry.sizes.tag_bits n result }
    {
        Ok(match self.adkd_number(n)? {
            0 => Adkd::InavCed,
            4 => Adkd::InavTiming,
            12 => Adkd::SlowMac,
            _ => Adkd::Reserved,
        })
    }

    // COP of tag n.
    pub fn tag_cop(self, n: usize) -> Result<u64, Refusal>
        ensures { TagCop self.entry.msg.now self.entry.sizes.key_bytes self.entry.sizes.tag_bits n result }
    {
        self.info(n, COP)
    }

    // Copies the key into the caller's output of key_bytes bytes; one of another length is 1, tested last. The key may start half a byte in.
    pub fn key(self, out: &mut [u8]) -> Result<(), Refusal>
        ensures { Key self.entry.msg.now self.entry.sizes.key_bytes self.entry.sizes.tag_bits out.old result out.new }
    {
        self.check()?;
        if out.len() != self.sizes.key_bytes {
            return Err(Refusal::SliceLength);
        }
        let start = self.sizes.tags() * (self.sizes.tag_bits + TAG_INFO.width);
        copy_from(self.msg, start, out);
        Ok(())
    }
}

// The low half of a byte, and behind it the high half of the next.
fn across(byte: u8, next: u8) -> u8
    ensures { result ≡ byte % 16 * 16 + next / 16 }
{
    byte % 16 * 16 + next / 16
}

// Copies the bytes from byte `first` on into all of `out`. A loop: the library's copy calls `memmove`, and the archive for C calls nothing.
fn copy_bytes(msg: &[u8], first: usize, out: &mut [u8])
    requires { first + length out.old ≤ length msg.now }
    ensures { out.new ≡ take (length out.old) (drop first msg.now) }
{
    for i in 0..out.len() {
        out[i] = msg[first + i];
    }
}

// Copies the bytes from half a byte into byte `first` on into all of `out`. By index: each byte is made of two neighbours, which a chain would pair first.
fn copy_half_bytes(msg: &[u8], first: usize, out: &mut [u8])
    requires { first + length out.old < length msg.now }
    ensures { out.new ≡ bytes_from msg.now (8 * first + 4) (length out.old) }
{
    for i in 0..out.len() {
        out[i] = across(msg[first + i], msg[first + i + 1]);
    }
}

// Copies the bytes from bit `start` on, where a byte or half of one starts, into all of `out`.
fn copy_from(msg: &[u8], start: usize, out: &mut [u8])
    requires { (start % 4 ≡ 0) × (start + 8 * length out.old ≤ 8 * length msg.now) }
    ensures { out.new ≡ bytes_from msg.now start (length out.old) }
{
    let first = start / 8;
    if start % 8 == 0 {
        copy_bytes(msg, first, out);
        return;
    }
    copy_half_bytes(msg, first, out);
}
