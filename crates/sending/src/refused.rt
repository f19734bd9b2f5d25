// What a writer refuses, told with a line each.
use crate::{contents, print};
use dsms::dsm::CompleteDsm;
use layouts::refusal::Refusal;
use std::io;

// A message whose three parts are of that many bytes.
fn tried<
    R: Print,
    V,
    W: Fn(&mut [u8], u64, V, &[u8], &[u8], &[u8]) -> Result<CompleteDsm, Refusal>,
>(
    rt: &R,
    lent: &mut [u8],
    write: W,
    name: &str,
    id: u64,
    v: V,
    lengths: [usize; 3],
) -> io::Result<()>
    requires { W.IsAlwaysCallable write }
{
    let bytes = contents::rising(1);
    let answer = write(
        lent,
        id,
        v,
        contents::first(&bytes, lengths[0]),
        contents::first(&bytes, lengths[1]),
        contents::first(&bytes, lengths[2]),
    );
    print::refused(rt, name, answer, lent)
}

pub(crate) fn one<
    R: Print,
    V,
    W: Fn(&mut [u8], u64, V, &[u8], &[u8], &[u8]) -> Result<CompleteDsm, Refusal>,
>(rt: &R, write: W, name: &str, id: u64, v: V, lengths: [usize; 3]) -> io::Result<()>
    requires { W.IsAlwaysCallable write }
{
    let mut lent = contents::BEFORE;
    tried(rt, &mut lent, write, name, id, v, lengths)
}

// The same with a byte less lent.
pub(crate) fn lent_207<
    R: Print,
    V,
    W: Fn(&mut [u8], u64, V, &[u8], &[u8], &[u8]) -> Result<CompleteDsm, Refusal>,
>(rt: &R, write: W, name: &str, id: u64, v: V, lengths: [usize; 3]) -> io::Result<()>
    requires { W.IsAlwaysCallable write }
{
    let mut lent = [170u8; 207];
    tried(rt, &mut lent, write, name, id, v, lengths)
}

// The raw numbers of a message's first bytes: the refusal, or that they are read.
pub(crate) fn numbers<R: Print, V: Drop, F: Fn(&[u8]) -> Result<V, Refusal>>(
    rt: &R,
    kind: &str,
    many: usize,
    read: F,
) -> io::Result<()>
    requires { F.IsAlwaysCallable read }
{
    let bytes = contents::rising(1);
    match read(contents::first(&bytes, many)) {
        Err(e) => println!(rt; "{kind} numbers of {many} bytes: refused {}", e.number()),
        Ok(_) => println!(rt; "{kind} numbers of {many} bytes: read"),
    }
}
