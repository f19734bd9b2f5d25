// The records of answers.bin, little endian: a head of 40 bytes, the message, the output.
ghost use Rattle.std.specs.Prelude.{◌≡◌, true, ◌+◌, ◌*◌, ◌≤◌, IfOk, length};
ghost use Rattle.vectors.specs.inner.Answered.{refusal_in, values_in};
ghost use Rattle.vectors.specs.inner.Little.{four_of};

use crate::found::Found;
use std::io;
use std::io::Read;

#[derive(Clone, Copy)]
pub(crate) struct Record {
    pub function: u8,
    // The lengths of the message and of the output.
    pub mlen: u8,
    pub olen: u8,
    // As it stands in the file: 0 for none.
    pub refusal: u8,
    pub a: usize,
    pub b: usize,
    pub c: usize,
    // Zeros where it is a refusal.
    pub values: [u64; 3],
}

// A record, with its message and its output.
#[derive(Clone, Copy)]
pub(crate) struct Call<'a> {
    pub record: Record,
    pub msg: &'a [u8],
    pub expected: &'a [u8],
}

// Three outcomes, and the cut one is told with the record's number: no Option, and no `io::Error`.
#[derive(Clone, Copy)]
pub(crate) enum Next {
    Whole(Record),
    // The file ends inside a record.
    Cut,
    End,
}

// Reads until the bytes are full or the file ends; how many were read.
pub(crate) fn read_full<F: Read>(file: &mut F, bytes: &mut [u8]) -> io::Result<usize>
    ensures { IfOk result (λ n. n ≤ length bytes.new) }
{
    let mut many = 0;
    // No counted loop: a turn goes on by what one read gave.
    while many < bytes.len() {
        let more = file.read(&mut bytes[many..])?;
        if more == 0 {
            return Ok(many);
        }
        many += more;
    }
    Ok(many)
}

// The number of the four bytes from `at` on. `eight`: of eight.
fn four(head: &[u8; 40], at: usize) -> u32
    requires { at ≤ 36 }
    ensures { result ≡ four_of head.now at }
{
    u32::from_le_bytes([head[at], head[at + 1], head[at + 2], head[at + 3]])
}

fn eight(head: &[u8; 40], at: usize) -> u64
    requires { at ≤ 32 }
    ensures { result ≡ four_of head.now at + 4294967296 * four_of head.now (at + 4) }
{
    u64::from(four(head, at)) + 4294967296 * u64::from(four(head, at + 4))
}

fn read(head: &[u8; 40]) -> Record {
    Record {
        function: head[0],
        mlen: head[1],
        olen: head[2],
        refusal: head[3],
        a: four(head, 4) as usize,
        b: four(head, 8) as usize,
        c: four(head, 12) as usize,
        values: [eight(head, 16), eight(head, 24), eight(head, 32)],
    }
}

// The next record of the file; its message and then its output stand at the start of `body`.
pub(crate) fn take<F: Read>(file: &mut F, body: &mut [u8]) -> io::Result<Next> {
    let mut head = [0u8; 40];
    let got = read_full(file, &mut head)?;
    if got == 0 {
        return Ok(Next::End);
    }
    if got < 40 {
        return Ok(Next::Cut);
    }
    let r = read(&head);
    let n = usize::from(r.mlen) + usize::from(r.olen);
    if body.len() < n {
        return Ok(Next::Cut);
    }
    if read_full(file, &mut body[0..n])? < n {
        return Ok(Next::Cut);
    }
    Ok(Next::Whole(r))
}

// The record with its message and output, at the start of `body`.
pub(crate) fn split(record: Record, body: &[u8]) -> Option<Call<'_>> {
    let (msg, rest) = body.split_at_checked(usize::from(record.mlen))?;
    let (expected, _) = rest.split_at_checked(usize::from(record.olen))?;
    Some(Call {
        record,
        msg,
        expected,
    })
}

// Whether the answer is the recorded one.
pub(crate) fn agrees(r: Record, f: Found) -> bool
    ensures { result ≡ true → (refusal_in f.answer ≡ r.refusal) × (values_in f.answer ≡ r.values) × (f.fits ≡ true) }
{
    let (refusal, values) = f.recorded();
    f.fits && refusal == r.refusal && values == r.values
}
