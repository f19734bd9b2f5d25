// Replays the records of a file, one by one: what is found at each is held to what is recorded.
use crate::found::Found;
use crate::records::{Next, Record};
use crate::tally::Tally;
use crate::{print, records, tally};
use std::fs::Files;
use std::io::Read;
use std::{fs, io};

// The tally with one record more, and what was found at it. Of those that differ only the first twenty are printed.
fn judged<R: Print>(
    rt: &R,
    r: Record,
    found: Option<Found>,
    number: u64,
    t: Tally,
) -> io::Result<Tally> {
    if found.is_some_and(|f| records::agrees(r, f)) {
        return Ok(t);
    }
    if t.differ < 20 {
        print::difference(rt, number, r, found)?;
    }
    Ok(t.difference())
}

// A loop has to end, and nothing says that a file does: a file of more than a million records counts as a difference. They are counted
// from 1 on. Of a record that is for the C boundary only nothing is asked; another is asked, judged and printed as `as_asked` gives it.
fn each<
    R: Print,
    F: Read,
    B: Fn(Record) -> bool,
    C: Fn(Record) -> Record,
    A: FnMut(Record, &mut [u8]) -> Option<Found>,
>(rt: &R, file: &mut F, is_boundary_only: B, as_asked: C, mut ask: A) -> io::Result<Tally>
    requires { B.IsAlwaysCallable is_boundary_only × C.IsAlwaysCallable as_asked × A.IsAlwaysCallable ask }
{
    let mut t = tally::none();
    for number in 1..=1000000 {
        let mut body = [0u8; 510];
        match records::take(file, &mut body)? {
            Next::End => return Ok(t),
            Next::Cut => {
                print::cut(rt, number)?;
                return Ok(t.difference());
            }
            Next::Whole(r) => {
                t = t.record(r.refusal != 0);
                if is_boundary_only(r) {
                    t = t.boundary_only();
                } else {
                    let r = as_asked(r);
                    let found = ask(r, &mut body);
                    t = judged(rt, r, found, number, t)?;
                }
            }
        }
    }
    print::endless(rt)?;
    Ok(t.difference())
}

// All records of the file. One that cannot be opened is a difference.
pub(crate) fn all<
    R: Print + Files,
    B: Fn(Record) -> bool,
    C: Fn(Record) -> Record,
    A: FnMut(Record, &mut [u8]) -> Option<Found>,
>(rt: &R, path: &str, is_boundary_only: B, as_asked: C, ask: A) -> io::Result<Tally>
    requires { B.IsAlwaysCallable is_boundary_only × C.IsAlwaysCallable as_asked × A.IsAlwaysCallable ask }
{
    match fs::open(rt, path) {
        Ok(mut file) => each(rt, &mut file, is_boundary_only, as_asked, ask),
        Err(_) => {
            print::missing(rt, path)?;
            Ok(tally::none().difference())
        }
    }
}
