// The lines that a page replay writes. Each is put at the start of the caller's 256 bytes, of which the longest takes 167; or at any place of a lent buffer
// that has room for it (`.._at`).
ghost use Rattle.std.specs.Prelude.{◌≡◌, List, [], ◌∷◌, ◌++◌, ℕ, ◌+◌, ◌≤◌, length};
ghost use Rattle.texts.specs.Decimal.{digits};
ghost use Rattle.texts.specs.inner.Begun.{Begun};
ghost use Rattle.texts.specs.inner.Counts.{Counts};
ghost use Rattle.texts.specs.Lines.{SubframeLine, DsmLine, TotalsLine, RefusedLine};
ghost use Rattle.std.specs.Fn.{FnOnceReturnsAtMut};
ghost use Rattle.texts.specs.Puts.{PutText};
ghost use Rattle.texts.specs.Lines.{Part, Writes, line as line_of};
ghost use Rattle.texts.specs.Lines.{SubframeLineAt, DsmLineAt, TotalsLineAt, RefusedLineAt};

use crate::put;
use layouts::gst::Stamp;
use layouts::refusal::Refusal;

// What a page replay counted, and how many bytes it left at the end.
#[derive(Clone, Copy)]
pub struct Counted {
    pub pages: u64,
    pub skipped: u64,
    pub subframes: u64,
    pub dsms: u64,
    pub silent: u64,
    pub tail: usize,
}

// Words and the number behind them go to `at`. Answers where they end.
fn put_part(out: &mut [u8], at: usize, words: &[u8], n: u64) -> usize
    requires { at + length words.now + 20 ≤ length out.old }
    ensures by_index { (m s : List ℕ) → Begun m s out.old at → Begun m (s ++ (words.now ++ digits n)) out.new result }
    ensures upper_bound { result ≤ at + length words.now + 20 }
{
    let end = put::put_words(out, at, words);
    put::put_number(out, end, n)
}

// The newline. Answers how many bytes the line has.
fn put_end(out: &mut [u8], at: usize) -> usize
    requires { at + 1 ≤ length out.old }
    ensures by_index { (m s : List ℕ) → Begun m s out.old at → Begun m (s ++ (10 ∷ [])) out.new result }
    ensures counts { Counts result out.new }
{
    out[at] = b'\n';
    at + 1
}

// `S satellite week time`. Answers how many bytes the line has, as the others do.
pub fn subframe(out: &mut [u8; 256], stamp: Stamp) -> usize
    ensures subframe_line { SubframeLine out.old stamp result out.new }
    ensures counts { Counts result out.new }
{
    let view: &mut [u8] = out;
    let a = put_part(view, 0, b"S ", u64::from(stamp.satellite));
    let b = put_part(view, a, b" ", u64::from(stamp.week));
    let c = put_part(view, b, b" ", u64::from(stamp.time));
    put_end(view, c)
}

// `D id n`.
pub fn dsm(out: &mut [u8; 256], id: u8, bytes: usize) -> usize
    ensures dsm_line { DsmLine out.old id bytes result out.new }
    ensures counts { Counts result out.new }
{
    let view: &mut [u8] = out;
    let a = put_part(view, 0, b"D ", u64::from(id));
    // `u64` has no `From<usize>`.
    let b = put_part(view, a, b" ", bytes as u64);
    put_end(view, b)
}

// `pages .. skipped .. subframes .. dsms .. silent .. tail ..`, the last line.
pub fn totals(out: &mut [u8; 256], counts: Counted) -> usize
    ensures totals_line { TotalsLine out.old counts result out.new }
    ensures counts { Counts result out.new }
{
    let view: &mut [u8] = out;
    let a = put_part(view, 0, b"pages ", counts.pages);
    let b = put_part(view, a, b" skipped ", counts.skipped);
    let c = put_part(view, b, b" subframes ", counts.subframes);
    let d = put_part(view, c, b" dsms ", counts.dsms);
    let e = put_part(view, d, b" silent ", counts.silent);
    // `u64` has no `From<usize>`.
    let f = put_part(view, e, b" tail ", counts.tail as u64);
    put_end(view, f)
}

// `refused N`.
pub fn refused(out: &mut [u8; 256], n: u8) -> usize
    ensures refused_line { RefusedLine out.old n result out.new }
    ensures counts { Counts result out.new }
{
    let view: &mut [u8] = out;
    let a = put_part(view, 0, b"refused ", u64::from(n));
    put_end(view, a)
}

// What `line` puts at the start of 256 bytes, and counts, goes to `at`.
fn put_line<F: FnOnce(&mut [u8; 256]) -> usize>(
    out: &mut [u8],
    at: usize,
    line: F,
) -> Result<usize, Refusal>
    requires callable { F.IsAlwaysCallable line }
    requires counted { (m after : List ℕ) (n : ℕ) → FnOnceReturnsAtMut F.FnOnce line m n after → Counts n after }
    ensures { (ps : List Part) → ((m after : List ℕ) (n : ℕ) → FnOnceReturnsAtMut F.FnOnce line m n after → Writes ps m n after) → PutText (line_of ps) out.old at result out.new }
{
    let mut text = [0u8; 256];
    let many = line(&mut text);
    put::words(out, at, &text[..many])
}

// The same lines at any place. Refuses 1 where there is no room for all of it.
pub fn subframe_at(out: &mut [u8], at: usize, stamp: Stamp) -> Result<usize, Refusal>
    ensures { SubframeLineAt out.old at stamp result out.new }
{
    put_line(out, at, |text| subframe(text, stamp))
}

// `D id n`.
pub fn dsm_at(out: &mut [u8], at: usize, id: u8, bytes: usize) -> Result<usize, Refusal>
    ensures { DsmLineAt out.old at id bytes result out.new }
{
    put_line(out, at, |text| dsm(text, id, bytes))
}

// The last line.
pub fn totals_at(out: &mut [u8], at: usize, counts: Counted) -> Result<usize, Refusal>
    ensures { TotalsLineAt out.old at counts result out.new }
{
    put_line(out, at, |text| totals(text, counts))
}

// `refused N`.
pub fn refused_at(out: &mut [u8], at: usize, n: u8) -> Result<usize, Refusal>
    ensures { RefusedLineAt out.old at n result out.new }
{
    put_line(out, at, |text| refused(text, n))
}
