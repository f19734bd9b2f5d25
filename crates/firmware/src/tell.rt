// An answer, told as a number and through what the caller lends.
#![tactic(auto, unfolding(crate::specs::Outcome::one, crate::specs::Outcome::two, crate::specs::Outcome::slot))]

ghost use Rattle.std.specs.Prelude.{◌≡◌, get_or};
ghost use Rattle.layouts.specs.Refusals.{refused_by};
ghost use Rattle.layouts.specs.Meaning.{meaning_number, meaning_part, meaning_ecdsa, meaning_slot, adkd_numbers, object_number};
ghost use Rattle.firmware.specs.Outcome.{Told, Placed, Slotted};

use layouts::dsm_kroot::EcdsaFunction;
use layouts::maclt::{AuthObject, MacLTSlot};
use layouts::part::Part;
use layouts::refusal::Refusal;
use layouts::tag_info::Adkd;

// Four tellers and not one that takes what to write as a closure: of a closure that is not called, what it borrowed is not
// known to stay (tried).
pub(crate) fn done(answer: Result<(), Refusal>) -> u32
    ensures { result ≡ refused_by answer }
{
    match answer {
        Err(e) => u32::from(e.number()),
        Ok(()) => 0,
    }
}

pub(crate) fn number(answer: Result<u64, Refusal>, value: &mut u64) -> u32
    ensures { Told value.old result value.new (meaning_number answer) }
{
    match answer {
        Err(e) => u32::from(e.number()),
        Ok(v) => {
            *value = v;
            0
        }
    }
}

pub(crate) fn part(answer: Result<Part, Refusal>, first: &mut u64, many: &mut u64) -> u32
    ensures { Placed first.old many.old result first.new many.new (meaning_part answer) }
{
    match answer {
        Err(e) => u32::from(e.number()),
        Ok(part) => {
            *first = part.first as u64;
            *many = part.many as u64;
            0
        }
    }
}

// The number in the function's name.
pub(crate) fn ecdsa(answer: Result<EcdsaFunction, Refusal>, value: &mut u64) -> u32
    ensures { Told value.old result value.new (meaning_ecdsa answer) }
{
    match answer {
        Err(e) => u32::from(e.number()),
        Ok(f) => {
            *value = f as u64;
            0
        }
    }
}

// The number of a Reserved one is not known, and 0 stands for it: no cast gives that.
fn adkd_number(adkd: Adkd) -> u64
    ensures { result ≡ get_or (adkd_numbers adkd) 0 0 }
{
    match adkd {
        Adkd::InavCed => 0,
        Adkd::InavTiming => 4,
        Adkd::SlowMac => 12,
        Adkd::Reserved => 0,
    }
}

pub(crate) fn slot(
    answer: Result<MacLTSlot, Refusal>,
    flex: &mut u64,
    adkd: &mut u64,
    object: &mut u64,
) -> u32
    ensures { Slotted flex.old adkd.old object.old result
        flex.new adkd.new object.new (meaning_slot answer) }
{
    match answer {
        Err(e) => u32::from(e.number()),
        Ok(s) => {
            match s {
                MacLTSlot::Flex => {
                    *flex = 1;
                    *adkd = 0;
                    *object = 0;
                }
                MacLTSlot::Fixed { adkd: a, object: o } => {
                    *flex = 0;
                    *adkd = adkd_number(a);
                    *object = o as u64;
                }
            }
            0
        }
    }
}
