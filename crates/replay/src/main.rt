// Replays pages: `replay SATELLITE WEEK TIME < PAGES`. What is printed comes from `listing`; here are the arguments, reading and writing.
#![tactic(auto)]

mod asked;
mod failure;
mod job;
mod stream;

use crate::failure::Failure;
use crate::job::Room;
use std::env::Env;
use std::process::ExitCode;

fn run<R: Env + Input + Print>(rt: &R) -> Result<(), Failure> {
    let mut room = Room::new();
    let begun = asked::begun(rt, &mut room)?;
    stream::run(rt, begun, &mut room)
}

fn main(rt: HostRuntime) -> ExitCode {
    match run(&rt) {
        Ok(()) => ExitCode::SUCCESS,
        Err(failure) => {
            failure::say(&rt, &failure);
            ExitCode::FAILURE
        }
    }
}
