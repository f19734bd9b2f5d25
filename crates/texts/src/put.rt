// Texts into a lent buffer, from a place `at` on. Where there is no room for all of it, a text is refused with 1; the rest of the buffer stays as it was.
ghost use Rattle.std.specs.Prelude.{◌≡◌, ℕ, List, ◌+◌, ◌≤◌, ◌<◌, length, get_or};
ghost use Rattle.layouts.specs.Lists.{put as put_at};
ghost use Rattle.texts.specs.Decimal.{digits};
ghost use Rattle.texts.specs.Puts.{HasRoom, PutWords, PutNumber, PutHexadecimal, PutNewline};

use crate::hexadecimal;
use layouts::refusal::Refusal;

// `out` and `at` stay two parameters, and room a fact of each call by its own length: the public functions are lent a slice and told a place.
// The words go to `at`. Answers where they end, as the others do.
pub(crate) fn put_words(out: &mut [u8], at: usize, words: &[u8]) -> usize
    requires { at + length words.now ≤ length out.old }
    ensures out_after { out.new ≡ put_at out.old at (length words.now) words.now }
    ensures value { result ≡ at + length words.now }
{
    let end = at + words.len();
    out[at..end].copy_from_slice(words);
    end
}

// The number's digits go to `at`, written by hand: the lent slice is no writer that Display could print to. By recursion: a loop writes the last digit first, and would have to count the digits before.
pub(crate) fn put_number(out: &mut [u8], at: usize, n: u64) -> usize
    requires { at + length (digits n) ≤ length out.old }
    ensures out_after { out.new ≡ put_at out.old at (length (digits n)) (digits n) }
    ensures value { result ≡ at + length (digits n) }
{
    if n < 10 {
        out[at] = b'0' + n as u8;
        return at + 1;
    }
    let end = put_number(out, at, n / 10);
    out[end] = b'0' + (n % 10) as u8;
    end + 1
}

// `many` bytes, `byte(k)` the one behind the first `k`, go to `at`. By index: the closure is asked by the number of the byte.
pub(crate) fn put_each<F: Fn(usize) -> u8>(out: &mut [u8], at: usize, many: usize, byte: F) -> usize
    requires room { at + many ≤ length out.old }
    requires callable { (k : ℕ) → k < many → F.pre byte k }
    ensures out_after { (s : List ℕ) → length s ≡ many → ((k r : ℕ) → k < many → F.post byte k r → r ≡ get_or s k 0) → out.new ≡ put_at out.old at (length s) s }
    ensures value { result ≡ at + many }
{
    for k in 0..many {
        out[at + k] = byte(k);
    }
    at + many
}

// 1 where a buffer of `long` bytes has no room for `many` from `at` on.
pub(crate) fn check_room(long: usize, at: usize, many: usize) -> Result<(), Refusal>
    ensures { HasRoom long at many result }
{
    if long < at || long - at < many {
        return Err(Refusal::SliceLength);
    }
    Ok(())
}

// Words as they are.
pub fn words(out: &mut [u8], at: usize, words: &[u8]) -> Result<usize, Refusal>
    ensures { PutWords out.old at words.now result out.new }
{
    check_room(out.len(), at, words.len())?;
    Ok(put_words(out, at, words))
}

// A number in decimal digits.
pub fn number(out: &mut [u8], at: usize, n: u64) -> Result<usize, Refusal>
    ensures { PutNumber out.old at n result out.new }
{
    let mut text = [0u8; 20];
    let many = put_number(&mut text, 0, n);
    words(out, at, &text[..many])
}

// Bytes in two capital hexadecimal digits each.
pub fn hexadecimal(out: &mut [u8], at: usize, bytes: &[u8]) -> Result<usize, Refusal>
    ensures { PutHexadecimal out.old at bytes.now result out.new }
{
    check_room(out.len(), at, 2 * bytes.len())?;
    Ok(put_each(out, at, 2 * bytes.len(), |k| {
        hexadecimal::capital(bytes, k)
    }))
}

// A newline.
pub fn newline(out: &mut [u8], at: usize) -> Result<usize, Refusal>
    ensures { PutNewline out.old at result out.new }
{
    words(out, at, b"\n")
}
