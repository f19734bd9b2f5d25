// The tags of a MACK message against the slots of the MAC look-up table.
ghost use Rattle.std.specs.Prelude.{◌≡◌};
ghost use Rattle.layouts.specs.Answer.{gives, refusal as refusal_of};
ghost use Rattle.layouts.specs.Mack.{tag_checks};
ghost use Rattle.layouts.specs.Maclt.{table, row_of, slots, entry_checks};
ghost use Rattle.layouts.specs.Meaning.{object_number};
ghost use Rattle.recorder.specs.Slots.{prnd_fits, broken, broken_at, walked};
ghost use Rattle.recorder.specs.WalkPromises.{verdict_numbers};
ghost use Rattle.recorder.specs.inner.Code.{slot_of, adkd_number, field_or_0, Walkable};

use layouts::mack::Mack;
use layouts::maclt;
use layouts::maclt::{AuthObject, MacLTSlot};
use layouts::tag_info::Adkd;

// The field of a tag that breaks its slot.
#[derive(Clone, Copy, Debug, PartialEq, Eq)]
pub enum TagField {
    Adkd = 1,
    Prnd = 2,
}

// All tags fit their slots; or the first that breaks its slot, and the field that broke it; or the table's nt and the message's, which differ, and no tag was
// judged.
#[derive(Clone, Copy, Debug, PartialEq, Eq)]
pub enum Verdict {
    AllFit,
    Breaks { tag: u8, field: TagField },
    TagsDiffer { table: u8, message: u8 },
}

// The number of a slot's ADKD, since `Reserved` is the name of many. No slot has a Reserved one, and no tag has 16.
fn number_of(adkd: Adkd) -> u64
    ensures { result ≡ adkd_number adkd }
{
    adkd as u64
}

// Whether PRND is what a slot of that ADKD and object asks for. The 255 of ADKD 4 is as document 02 asks; the Rust and the Receiver Guidelines have the
// sender's number there (docs/DIFFERENCES.md, "The slot rules"). To turn it round is one line here and one in `prnd_fits`.
fn prnd_fits(adkd: u64, object: AuthObject, sender: u64, prnd: u64) -> bool
    ensures { result ≡ prnd_fits adkd (object_number object) sender prnd }
{
    match object {
        AuthObject::SelfAuth => {
            if adkd == 4 {
                return prnd == 255;
            }
            prnd == sender
        }
        AuthObject::CrossAuth => matches!(prnd, 1..=36),
    }
}

// The field by which a tag with that ADKD and PRND breaks a slot, if it does: ADKD is looked at first. A flexible slot is not judged.
fn broken_field(slot: MacLTSlot, sender: u64, adkd: u64, prnd: u64) -> Option<TagField>
    ensures { field_or_0 result ≡ broken (slot_of slot) sender adkd prnd }
{
    match slot {
        MacLTSlot::Flex => None,
        MacLTSlot::Fixed {
            adkd: asked,
            object,
        } => {
            let asked = number_of(asked);
            if adkd != asked {
                return Some(TagField::Adkd);
            }
            if !prnd_fits(asked, object, sender, prnd) {
                return Some(TagField::Prnd);
            }
            None
        }
    }
}

// The field by which tag `n` breaks its slot, if it does.
fn tag_breaks(mack: Mack<'_>, sender: u8, maclt: u8, msg: usize, n: usize) -> Option<TagField>
    requires { (refusal_of (tag_checks mack.msg.now mack.sizes.key_bytes mack.sizes.tag_bits n) ≡ 0) × (refusal_of (entry_checks maclt msg n) ≡ 0) }
    ensures { field_or_0 result ≡ broken_at mack.entry.msg.now mack.entry.sizes.tag_bits sender maclt msg n }
{
    let adkd = mack.adkd_number(n).unwrap();
    let prnd = mack.prnd_number(n).unwrap();
    let slot = maclt::get_maclt_entry(maclt, msg, n).unwrap();
    broken_field(slot, u64::from(sender), adkd, prnd)
}

// Tags 1 to nt-1 at their slots. A `for`, and no `find_map`: the tag goes into the verdict beside its field.
pub(crate) fn walk_tags(mack: Mack<'_>, sender: u8, maclt: u8, msg: usize, nt: u8) -> Verdict
    requires { Walkable mack.msg.now mack.sizes.key_bytes mack.sizes.tag_bits maclt msg nt }
    ensures { gives (verdict_numbers result) ≡ walked mack.entry.msg.now mack.entry.sizes.tag_bits sender 1 (slots msg (row_of maclt table)) }
{
    for tag in 1..nt {
        if let Some(field) = tag_breaks(mack, sender, maclt, msg, usize::from(tag)) {
            return Verdict::Breaks { tag, field };
        }
    }
    Verdict::AllFit
}
