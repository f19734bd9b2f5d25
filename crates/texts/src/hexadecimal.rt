// Bytes as hexadecimal digits, two each.
ghost use Rattle.std.specs.Prelude.{◌≡◌, true, ◌+◌, ◌*◌, ◌<◌, length, get_or};
ghost use Rattle.texts.specs.Hexadecimal.{digit_of, is_hex_digit, letter as letter_of, capitals, is_hexadecimal, bytes_of, Spells};
ghost use Rattle.texts.specs.Puts.{ReadHexadecimal};

use crate::put;
use layouts::refusal::Refusal;

// The value of a digit: of a byte, which unlike a char has no `to_digit`.
fn digit(c: u8) -> u8
    requires { is_hex_digit c ≡ true }
    ensures { result ≡ digit_of c }
{
    match c {
        b'0'..=b'9' => c - b'0',
        b'A'..=b'F' => c - b'A' + 10,
        _ => c - b'a' + 10,
    }
}

// The digit of a value, a capital letter above 9.
fn letter(d: u8) -> u8
    requires { d < 16 }
    ensures { result ≡ letter_of d }
{
    match d {
        0..=9 => b'0' + d,
        _ => b'A' + (d - 10),
    }
}

// Digit `k` of the bytes.
pub(crate) fn capital(bytes: &[u8], k: usize) -> u8
    requires { k < 2 * length bytes.now }
    ensures { result ≡ get_or (capitals bytes.now) k 0 }
{
    let b = bytes[k / 2];
    if k % 2 == 0 {
        letter(b / 16)
    } else {
        letter(b % 16)
    }
}

// Digits only, two for each byte.
fn is_hexadecimal(text: &[u8]) -> bool
    ensures { result ≡ is_hexadecimal text.now }
{
    text.len() % 2 == 0 && text.iter().all(|c| c.is_ascii_hexdigit())
}

// Byte `i` of the text.
fn byte(text: &[u8], i: usize) -> u8
    requires { (2 * i + 1 < length text.now) × (is_hexadecimal text.now ≡ true) }
    ensures { result ≡ get_or (bytes_of text.now) i 0 }
{
    16 * digit(text[2 * i]) + digit(text[2 * i + 1])
}

// The bytes that the digits of a text spell go to `at`; capital and small letters are both read. Refuses 1 where there is no room for them, then 7 for a text
// that is not hexadecimal or has half a byte.
pub fn read(out: &mut [u8], at: usize, text: &[u8]) -> Result<usize, Refusal>
    ensures { ReadHexadecimal out.old at text.now result out.new }
{
    put::check_room(out.len(), at, text.len() / 2)?;
    if !is_hexadecimal(text) {
        return Err(Refusal::Argument);
    }
    Ok(put::put_each(out, at, text.len() / 2, |i| byte(text, i)))
}

// The text is the bytes' digits, in capital letters. By the digit's number: a byte has two, so that zip does not pair them.
pub fn spells(text: &[u8], bytes: &[u8]) -> bool
    ensures { Spells text.now bytes.now result }
{
    text.len() == 2 * bytes.len() && (0..text.len()).all(|k| text[k] == capital(bytes, k))
}
