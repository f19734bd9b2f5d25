// Counts of what was read as it was given.
use layouts::refusal::Refusal;

// How many tests hold.
pub(crate) fn held(tests: &[bool]) -> usize {
    tests.iter().filter(|holds| **holds).count()
}

pub(crate) fn is(answer: Result<u64, Refusal>, given: u64) -> bool {
    answer == Ok(given)
}
