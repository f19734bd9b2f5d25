// The bench at work: every shape of a message is written, cut into blocks, fed to the collector, read and written again, one line
// each; then the published PKR, a recording with another week, and what is refused. The file `stdout` has what request 1 of document
// 02 makes of it. In a line, `fields` and `parts` are those that the readers of `layouts` gave back, `numbers` those of the
// transmitter's own reader, and `same again` says that writing all of these gave the same 208 bytes.

#![tactic(auto)]

mod blocks;
mod changed;
mod contents;
mod kroot;
mod pkr;
mod print;
mod published;
mod refused;
mod refused_blocks;
mod refused_kroot;
mod refused_pkr;
mod shapes;
mod tally;

use std::io;

fn main(rt: HostRuntime) -> io::Result<()> {
    shapes::kroots(&rt)?;
    shapes::pkrs(&rt)?;
    published::all(&rt)?;
    changed::all(&rt)?;
    refused_kroot::all(&rt)?;
    refused_pkr::all(&rt)?;
    refused_blocks::all(&rt)?;
    Ok(())
}
