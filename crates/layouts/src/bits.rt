// Fields: numbers made of runs of bits. Bit 0 is the high bit of byte 0.
ghost use Rattle.std.specs.Prelude.{◌≡◌, ◌+◌, ◌*◌, ◌^◌, ◌≤◌, ◌<◌, [], ◌∷◌, length, get_or};
ghost use Rattle.layouts.specs.Bits.{field, row, value, read};
ghost use Rattle.layouts.specs.Sizes.{read_size};
ghost use Rattle.layouts.specs.Meaning.{meaning_number};
ghost use Rattle.layouts.specs.BitReader.{ReadBits};

use crate::refusal::Refusal;

// A row of a layout: a field's first bit and its width in bits.
#[derive(Clone, Copy)]
pub struct Field {
    pub first: usize,
    pub width: usize,
}

// `low` of `n` bits behind `high`.
fn joined(high: u64, n: usize, low: u64) -> u64
    requires { (n < 64) × (low < 2 ^ n) × (high * 2 ^ n < 2 ^ 64) }
    ensures { result ≡ high * 2 ^ n + low }
{
    (high << n) | low
}

// The number that the `many` bytes from byte `first` on make.
fn bytes(s: &[u8], first: usize, many: usize) -> u64
    requires { (many ≤ 8) × (first + many ≤ length s.now) }
    ensures { result ≡ field s.now (8 * first) (8 * many) }
{
    let mut acc: u64 = 0;
    for byte in &s[first..first + many] {
        acc = joined(acc, 8, u64::from(*byte));
    }
    acc
}

// The field of `width` bits that starts `before` bits into byte `first`, where it ends within eight bytes from there:
// the whole bytes that it touches, then one shift and one mask.
fn short(s: &[u8], first: usize, before: usize, width: usize) -> u64
    requires { (width < 64) × (before + width ≤ 64) × (8 * first + before + width ≤ 8 * length s.now) }
    ensures { result ≡ field s.now (8 * first + before) width }
{
    let many = (before + width + 7) / 8;
    let acc = bytes(s, first, many);
    (acc >> (many * 8 - before - width)) & ((1u64 << width) - 1)
}

// The field of `width` bits from bit `start` on: in one piece, or the low 32 bits behind the others.
pub(crate) fn long(s: &[u8], start: usize, width: usize) -> u64
    requires { (width ≤ 64) × (start + width ≤ 8 * length s.now) }
    ensures { result ≡ field s.now start width }
{
    let first = start / 8;
    let before = start % 8;
    if before + width < 64 {
        return short(s, first, before, width);
    }
    let high = width - 32;
    let second = before + high;
    joined(
        short(s, first, before, high),
        32,
        short(s, first + second / 8, second % 8, 32),
    )
}

// The byte that starts `before` bits into byte `first`.
pub(crate) fn byte_at(s: &[u8], first: usize, before: usize) -> u8
    requires { (before < 8) × (8 * first + before + 8 ≤ 8 * length s.now) }
    ensures { result ≡ field s.now (8 * first + before) 8 }
{
    short(s, first, before, 8) as u8
}

// A field of a byte.
pub(crate) fn of_byte(byte: u8, at: Field) -> u8
    requires { (at.width < 8) × (at.first + at.width ≤ 8) × (1 ≤ at.width) }
    ensures { result ≡ value (row "" at.first at.width) (byte ∷ []) }
{
    (byte >> (8 - at.first - at.width)) & ((1u8 << at.width) - 1)
}

// A field of a message of any length: 5 where the message ends before it.
pub(crate) fn number(msg: &[u8], at: Field) -> Result<u64, Refusal>
    requires { (1 ≤ at.width) × (at.width ≤ 64) }
    ensures { meaning_number result ≡ read (row "" at.first at.width) msg.now }
{
    let len = msg.len();
    let first = at.first / 8;
    if len <= first {
        return Err(Refusal::MessageEnds);
    }
    if len - first < (at.first % 8 + at.width + 7) / 8 {
        return Err(Refusal::MessageEnds);
    }
    Ok(long(msg, at.first, at.width))
}

// The number that the `width` bits from bit `start` on make.
// Refuses 7 for a width other than 1 to 64, then 5 where the message ends before the field.
pub fn read_bits(msg: &[u8], start: usize, width: usize) -> Result<u64, Refusal>
    ensures { ReadBits msg.now start width result }
{
    if width == 0 {
        return Err(Refusal::Argument);
    }
    if 64 < width {
        return Err(Refusal::Argument);
    }
    number(
        msg,
        Field {
            first: start,
            width,
        },
    )
}

// The size that a half byte stands for, by a table of all sixteen, in which 0 is a reserved one.
// Refuses 5 where the message ends before it, then 6 where it is reserved.
pub(crate) fn size_at(msg: &[u8], at: Field, sizes: [u16; 16]) -> Result<u64, Refusal>
    requires { at.width ≡ 4 }
    ensures { meaning_number result ≡ read_size (row "" at.first at.width) (λ c. get_or sizes c 0) msg.now }
{
    let code = number(msg, at)?;
    let size = sizes[code as usize];
    if size == 0 {
        return Err(Refusal::Reserved);
    }
    Ok(u64::from(size))
}
