// Standard input, read to its end in pieces of whatever sizes it comes in; what the job makes of them goes to standard output.
ghost use Rattle.std.specs.Prelude.{◌≤◌, IfOk, length};

use crate::failure::Failure;
use crate::job;
use crate::job::{Done, Room};
use std::io;
use std::io::{Read, Write};

// Writes what a call of the job put into its room.
fn told<R: Print>(rt: &R, job: Done, out: &[u8]) -> Result<Done, Failure> {
    let n = job.written.min(out.len());
    match io::writer(rt).write_all(&out[..n]) {
        Ok(()) => Ok(job),
        Err(error) => Err(Failure::Unwritable(error)),
    }
}

// One call of the job, which takes no more than there is.
fn step<R: Print>(rt: &R, job: Done, room: &mut Room, rest: &[u8]) -> Result<Done, Failure>
    ensures { IfOk result (λ done. done.taken ≤ length rest.now) }
{
    let fed = job::feed(job, room, rest)?;
    let mut next = told(rt, fed, &room.out)?;
    next.taken = next.taken.min(rest.len());
    Ok(next)
}

// One piece, call by call, until it is used up.
fn piece<R: Print>(rt: &R, job: Done, room: &mut Room, piece: &[u8]) -> Result<Done, Failure> {
    let mut job = job;
    let mut rest = piece;
    // Nothing is counted: a turn goes on by as much as the job took.
    while !rest.is_empty() {
        job = step(rt, job, room, rest)?;
        if job.taken == 0 {
            return Ok(job);
        }
        rest = &rest[job.taken..];
    }
    Ok(job)
}

// What one reading gives; at the end of the input the job's last call, and then nothing.
fn turn<R: Input + Print>(rt: &R, job: Done, room: &mut Room) -> Result<Option<Done>, Failure> {
    let mut buf = [0u8; 65536];
    match rt.reader().read(&mut buf) {
        Err(error) => Err(Failure::Unreadable(error)),
        Ok(0) => {
            let last = job::finish(job, room)?;
            told(rt, last, &room.out)?;
            Ok(None)
        }
        Ok(n) => Ok(Some(piece(rt, job, room, &buf[..n])?)),
    }
}

// All of it, from what the job said at its beginning. Nothing is read where that was all. A loop has to end, and nothing says that the
// input does: the turns are counted up to a number that no run reaches.
pub(crate) fn run<R: Input + Print>(rt: &R, begun: Done, room: &mut Room) -> Result<(), Failure> {
    let mut job = told(rt, begun, &room.out)?;
    for _ in 0..u64::MAX {
        if job.is_over() {
            return Ok(());
        }
        match turn(rt, job, room)? {
            Some(next) => job = next,
            None => return Ok(()),
        }
    }
    Err(Failure::Endless)
}
