// The edges of a page replay, through the library's calls: what each run of pages comes to, and what single calls answer. The file
// `stdout` has what documents 01 and 02 make of it. The edges that document 01 marks, P1 to P12, are the statement of specs/Edges.antt.

#![tactic(auto)]

mod page_runs;
mod pages;
mod print;
mod recordings;
mod refusals;

use std::io;

fn main(rt: HostRuntime) -> io::Result<()> {
    recordings::all(&rt)?;
    refusals::all(&rt)?;
    Ok(())
}
