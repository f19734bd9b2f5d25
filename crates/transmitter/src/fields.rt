// Fields and bytes of a message. Bit numbers come from the rows of `layouts`.
ghost use Rattle.std.specs.Prelude.{◌≡◌, not, ◌+◌, ◌-◌, ◌*◌, ◌^◌, ◌≤◌, ◌<◌, length, get_or, ltb};
ghost use Rattle.layouts.specs.Bits.{row, value};
ghost use Rattle.layouts.specs.Packed.{bytes_of, too_wide};
ghost use Rattle.transmitter.specs.inner.Parts.{sized, rows_of, values_of, put_at};

use layouts::bits;
use layouts::bits::Field;
use layouts::refusal::Refusal;

// A value too wide for its field.
fn is_wide(v: u64, at: Field) -> bool
    ensures { result ≡ not (ltb v (2 ^ at.width)) }
{
    at.width < 64 && v >> at.width != 0
}

// A value among these that is too wide for its field.
pub(crate) fn any_wide(values: &[(u64, Field)]) -> bool
    ensures { result ≡ too_wide (rows_of values.now) (values_of values.now) }
{
    values.iter().any(|&(v, at)| is_wide(v, at))
}

// A value in its field, as a number of which bit `end` would be the next.
pub(crate) fn placed(v: u64, at: Field, end: usize) -> u64
    requires { (at.first + at.width ≤ end) × (end ≤ at.first + 63) × (v < 2 ^ at.width) }
    ensures { result ≡ v * 2 ^ (end - (at.first + at.width)) }
{
    v << (end - (at.first + at.width))
}

// The number that stands in a field of the message, which has the field: nothing is refused.
pub(crate) fn stands(msg: &[u8], at: Field) -> u64
    requires { (1 ≤ at.width) × (at.width ≤ 64) × (at.first + at.width ≤ 8 * length msg.now) }
    ensures { result ≡ value (row "" at.first at.width) msg.now }
{
    bits::read_bits(msg, at.first, at.width).unwrap()
}

// What a code stands for, by a table of sixteen: 6 where it is reserved. (`size_at` of `layouts` reads the code from a message, and is its own.)
pub(crate) fn listed(sizes: [u16; 16], code: u64) -> Result<u16, Refusal>
    ensures { result ≡ sized (get_or sizes code 0) }
{
    match sizes.get(code as usize) {
        Some(&size) if size != 0 => Ok(size),
        _ => Err(Refusal::Reserved),
    }
}

// So many bytes of a number, the high one first, from byte `at` on.
pub(crate) fn put_number(dsm: &mut [u8], at: usize, many: usize, n: u64)
    requires { (many ≤ 8) × (at + many ≤ length dsm.old) }
    ensures { dsm.new ≡ put_at dsm.old at (bytes_of many n) }
{
    let bytes = n.to_be_bytes();
    put(dsm, at, &bytes[8 - many..]);
}

// Bytes from byte `at` on. A loop: the library's copy calls `memmove`, which no archive for C asks for.
pub(crate) fn put(dsm: &mut [u8], at: usize, from: &[u8])
    requires { at + length from.now ≤ length dsm.old }
    ensures { dsm.new ≡ put_at dsm.old at from.now }
{
    for i in 0..from.len() {
        dsm[at + i] = from[i];
    }
}
