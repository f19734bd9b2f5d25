// Holds `layouts` and `recorder` to the recorded answers of the Rust, in the file answers.bin, and to published values, set into messages of our
// own making, and the collectors and the store to its recorded sequences of calls, in the file sequences.bin.

#![tactic(auto)]

mod checksum;
mod found;
mod print;
mod published;
mod published_kroot;
mod published_mack;
mod published_pkr;
mod published_slots;
mod recorded;
mod recorded_headers;
mod recorded_kroot;
mod recorded_mack;
mod recorded_pkr;
mod recorded_slots;
mod recorded_table;
mod records;
mod replayed;
mod sequence_calls;
mod sequences;
mod tally;

use std::io;

fn main(rt: HostRuntime) -> io::Result<()> {
    print::checksum(&rt, "answers.bin", checksum::of_file(&rt, "answers.bin")?)?;
    print::summary(&rt, recorded::all(&rt, "answers.bin")?)?;
    print::published_summary(&rt, published::all(&rt)?)?;
    print::checksum(
        &rt,
        "sequences.bin",
        checksum::of_file(&rt, "sequences.bin")?,
    )?;
    print::sequences_summary(&rt, sequences::all(&rt, "sequences.bin")?)?;
    Ok(())
}
