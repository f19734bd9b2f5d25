// Lines of the listing, put into the caller's room. Each function answers where the text ends.
ghost use Rattle.std.specs.Prelude.{◌≡◌, ◌++◌, ◌+◌, ◌≤◌, length};
ghost use Rattle.texts.specs.Lines.{line, subframe_parts, dsm_parts, totals_parts};
ghost use Rattle.layouts.specs.Refusals.{refusal_number};
ghost use Rattle.page_replay.specs.ReplayPromises.{meaning_subframes, meaning_dsms};
ghost use Rattle.listing.specs.Listing.{refused_line, subframe_lines, dsm_lines};
ghost use Rattle.listing.specs.inner.Puts.{Puts};

use layouts::gst::Stamp;
use layouts::refusal::Refusal;
use page_replay::replay::{DsmDone, SubframeDone};
use texts::lines;
use texts::lines::Counted;

// That there is room for 256 bytes is a fact, and no array type: the caller lends a slice of any length, and less than 256 is refused.
// `S satellite week time` goes to the start.
fn subframe_line(out: &mut [u8], stamp: Stamp) -> usize
    requires { 256 ≤ length out.old }
    ensures puts { Puts (line (subframe_parts stamp.satellite stamp.week stamp.time)) out.old 0 out.new result }
    ensures upper_bound { result ≤ 96 }
{
    lines::subframe_at(out, 0, stamp).unwrap()
}

// The S line, if there is one.
fn subframe(out: &mut [u8], satellite: u8, done: Option<SubframeDone>) -> usize
    requires { 256 ≤ length out.old }
    ensures puts { Puts (subframe_lines satellite (meaning_subframes done)) out.old 0 out.new result }
    ensures upper_bound { result ≤ 96 }
{
    match done {
        None => 0,
        Some(SubframeDone { week, time }) => subframe_line(
            out,
            Stamp {
                satellite,
                week,
                time,
            },
        ),
    }
}

// `D id n` goes to `at`.
fn dsm_line(out: &mut [u8], at: usize, id: u8, bytes: usize) -> usize
    requires { at + 96 ≤ length out.old }
    ensures { Puts (line (dsm_parts id bytes)) out.old at out.new result }
{
    lines::dsm_at(out, at, id, bytes).unwrap()
}

// The D line, if there is one.
fn dsm(out: &mut [u8], at: usize, done: Option<DsmDone>) -> usize
    requires { at + 96 ≤ length out.old }
    ensures { Puts (dsm_lines (meaning_dsms done)) out.old at out.new result }
{
    match done {
        None => at,
        Some(DsmDone { id, bytes }) => dsm_line(out, at, id, bytes),
    }
}

// What was completed, the S line first.
pub(crate) fn completed(
    out: &mut [u8],
    satellite: u8,
    subframe_done: Option<SubframeDone>,
    dsm_done: Option<DsmDone>,
) -> usize
    requires { 256 ≤ length out.old }
    ensures { Puts (subframe_lines satellite (meaning_subframes subframe_done) ++ dsm_lines (meaning_dsms dsm_done))
        out.old 0 out.new result }
{
    let at = subframe(out, satellite, subframe_done);
    dsm(out, at, dsm_done)
}

// The last line.
pub(crate) fn totals(out: &mut [u8], counts: Counted) -> usize
    requires { 256 ≤ length out.old }
    ensures { Puts (line (totals_parts counts.pages counts.skipped counts.subframes counts.dsms counts.silent counts.tail)) out.old 0 out.new result }
{
    lines::totals_at(out, 0, counts).unwrap()
}

// The only line, where the arguments are refused.
pub(crate) fn refused(out: &mut [u8], refusal: Refusal) -> usize
    requires { 256 ≤ length out.old }
    ensures { Puts (refused_line (refusal_number refusal)) out.old 0 out.new result }
{
    lines::refused_at(out, 0, refusal.number()).unwrap()
}
