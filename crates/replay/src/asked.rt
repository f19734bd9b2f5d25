// The program's arguments.
ghost use Rattle.std.specs.Prelude.{◌≡◌, ◌≤◌, OnOk, IfOk, length};

use crate::failure::Failure;
use crate::job;
use crate::job::{Done, Room};
use std::env::{Env, FillError};

// Room for any argument that Linux on x86-64 hands over: it has at most 131,071 bytes.
fn space() -> [u8; 131072]
    ensures { 131072 ≡ length result }
{
    [0; 131072]
}

// How many there are beside the program's own name.
fn count<R: Env>(rt: &R) -> usize {
    let mut room = [0u8; 1];
    // A loop with a call in each turn, and no chain: it is left at the first argument that is not there.
    for i in 1..usize::MAX {
        if let Err(FillError::NotPresent) = rt.arg(i, &mut room) {
            return i - 1;
        }
    }
    usize::MAX - 1
}

// An argument's bytes, none where it is missing. One that does not fit its space cannot be read.
fn bytes<'a, R: Env>(rt: &R, i: usize, space: &'a mut [u8]) -> Result<&'a [u8], Failure> {
    let view: &mut [u8] = space;
    match rt.arg(i, view) {
        Ok(n) => Ok(&view[..n]),
        Err(FillError::NotPresent) => Ok(&[]),
        Err(FillError::TooLong) => Err(Failure::TooLong),
    }
}

// What three arguments ask for.
fn three<R: Env>(rt: &R, room: &mut Room) -> Result<Done, Failure> {
    let mut a = space();
    let satellite = bytes(rt, 1, &mut a)?;
    let mut b = space();
    let week = bytes(rt, 2, &mut b)?;
    let mut c = space();
    let time = bytes(rt, 3, &mut c)?;
    job::begin(3, satellite, week, time, room)
}

// What the arguments ask for. Where there are not three, it does not matter what they are.
pub(crate) fn begun<R: Env>(rt: &R, room: &mut Room) -> Result<Done, Failure> {
    match count(rt) {
        3 => three(rt, room),
        many => job::begin(many, &[], &[], &[], room),
    }
}
