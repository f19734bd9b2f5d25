// An answer as four numbers.
#![tactic(auto, unfolding(crate::specs::Telling::told))]

ghost use Rattle.std.specs.Prelude.{◌≡◌};
ghost use Rattle.layouts.specs.Refusals.{refusal_number};
ghost use Rattle.dsms.specs.DsmPromises.{complete_numbers, meaning_dsm, meaning_shown as meaning_dsm_shown};
ghost use Rattle.subframes.specs.SubframePromises.{meaning_subframe, meaning_shown, meaning_word};
ghost use Rattle.storage.specs.StorePromises.{meaning_store, meaning_get};
ghost use Rattle.transmitter.specs.WritePromises.{meaning_written};
ghost use Rattle.recorder.specs.WalkPromises.{field_number, verdict_numbers};
ghost use Rattle.layouts.specs.Answer.{gives};
ghost use Rattle.probe.specs.Telling.{told, copied_to};

use dsms::dsm::CompleteDsm;
use layouts::part::Part;
use layouts::refusal::Refusal;
use recorder::slots::{TagField, Verdict};
use storage::mack_storage::MackFound;
use subframes::subframe::Pair;

// Kind 0 is nothing, 1 an answer with at most three numbers, zeros behind them, 2 a refusal with its number first.
#[repr(C)]
#[derive(Clone, Copy)]
pub struct Told {
    pub kind: u64,
    pub first: u64,
    pub second: u64,
    pub third: u64,
}

// The bytes go to the front of the output, where it has room for all of them. A loop: the library's copy calls `memmove`, which no archive for C asks for.
pub(crate) fn copy(bytes: &[u8], out: &mut [u8])
    ensures { out.new ≡ copied_to out.old bytes.now }
{
    let many = bytes.len();
    if out.len() < many {
        return;
    }
    for i in 0..many {
        out[i] = bytes[i];
    }
}

// One teller a type, a match each: told by one function that is handed what to tell of a value, each would need its own law (not plainer).
pub(crate) fn nothing() -> Told
    ensures { result ≡ record { kind = 0; first = 0; second = 0; third = 0 } }
{
    Told {
        kind: 0,
        first: 0,
        second: 0,
        third: 0,
    }
}

pub(crate) fn refused(refusal: Refusal) -> Told
    ensures { result ≡ record { kind = 2; first = refusal_number refusal; second = 0; third = 0 } }
{
    Told {
        kind: 2,
        first: u64::from(refusal.number()),
        second: 0,
        third: 0,
    }
}

pub(crate) fn given(first: u64, second: u64, third: u64) -> Told
    ensures { result ≡ record { kind = 1; first = first; second = second; third = third } }
{
    Told {
        kind: 1,
        first,
        second,
        third,
    }
}

pub(crate) fn subframe(answer: Result<Option<Pair>, Refusal>) -> Told
    ensures { result ≡ told (meaning_subframe answer) }
{
    match answer {
        Err(e) => refused(e),
        Ok(None) => nothing(),
        Ok(Some(Pair::Complete { week, time })) => given(u64::from(week), u64::from(time), 0),
        Ok(Some(Pair::Silent { week, time })) => given(u64::from(week), u64::from(time), 1),
    }
}

pub(crate) fn part(answer: Result<Option<Part>, Refusal>) -> Told
    ensures { result ≡ told (meaning_shown answer) }
{
    match answer {
        Err(e) => refused(e),
        Ok(None) => nothing(),
        Ok(Some(part)) => given(part.first as u64, part.many as u64, 0),
    }
}

pub(crate) fn word(used: Result<bool, Refusal>) -> Told
    ensures { result ≡ told (meaning_word used) }
{
    match used {
        Err(e) => refused(e),
        Ok(false) => nothing(),
        Ok(true) => given(0, 0, 0),
    }
}

pub(crate) fn complete(d: CompleteDsm) -> Told
    ensures { result ≡ told (gives (complete_numbers d)) }
{
    given(u64::from(d.id), d.dsm_type as u64, d.bytes as u64)
}

pub(crate) fn dsm(answer: Result<Option<CompleteDsm>, Refusal>) -> Told
    ensures { result ≡ told (meaning_dsm answer) }
{
    match answer {
        Err(e) => refused(e),
        Ok(None) => nothing(),
        Ok(Some(d)) => complete(d),
    }
}

pub(crate) fn dsm_shown(answer: Result<Option<usize>, Refusal>) -> Told
    ensures { result ≡ told (meaning_dsm_shown answer) }
{
    match answer {
        Err(e) => refused(e),
        Ok(None) => nothing(),
        Ok(Some(bytes)) => given(0, bytes as u64, 0),
    }
}

pub(crate) fn store(answer: Result<(), Refusal>) -> Told
    ensures { result ≡ told (meaning_store answer) }
{
    match answer {
        Err(e) => refused(e),
        Ok(()) => given(0, 0, 0),
    }
}

pub(crate) fn found(answer: Result<Option<MackFound>, Refusal>) -> Told
    ensures { result ≡ told (meaning_get answer) }
{
    match answer {
        Err(e) => refused(e),
        Ok(None) => nothing(),
        Ok(Some(found)) => given(found.first as u64, u64::from(found.status), 0),
    }
}

pub(crate) fn written(answer: Result<CompleteDsm, Refusal>) -> Told
    ensures { result ≡ told (meaning_written answer) }
{
    match answer {
        Err(e) => refused(e),
        Ok(d) => complete(d),
    }
}

// 1 ADKD, 2 PRND.
fn field_number(field: TagField) -> u64
    ensures { result ≡ field_number field }
{
    field as u64
}

pub(crate) fn verdict(slots: Verdict) -> Told
    ensures { result ≡ told (gives (verdict_numbers slots)) }
{
    match slots {
        Verdict::AllFit => given(0, 0, 0),
        Verdict::Breaks { tag, field } => given(1, u64::from(tag), field_number(field)),
        Verdict::TagsDiffer { table, message } => given(2, u64::from(table), u64::from(message)),
    }
}
