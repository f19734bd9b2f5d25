// DSM-PKR messages: written from raw numbers, and the raw numbers read back.
ghost use Rattle.std.specs.Prelude.{◌≡◌, ◌+◌, ◌≤◌, length};
ghost use Rattle.layouts.specs.Answer.{refusal as refusal_of};
ghost use Rattle.layouts.specs.Refusals.{refused_by};
ghost use Rattle.layouts.specs.Packed.{too_wide};
ghost use Rattle.transmitter.specs.Write.{pkr_rows, pkr_numbers, pkr_message, pkr_checks};
ghost use Rattle.transmitter.specs.WritePromises.{pkr_of, WritePkr, ReadPkrValues};
ghost use Rattle.transmitter.specs.inner.Parts.{over, Halves};

use crate::fields;
use dsms::dsm::CompleteDsm;
use layouts::dsm_header::DsmType;
use layouts::dsm_pkr;
use layouts::dsm_pkr::{ITN, MID, NB_DP, NPK_BYTE, NPKID, NPKT};
use layouts::refusal::Refusal;

// The values of a PKR message, as they stand in their fields.
#[derive(Clone, Copy)]
pub struct PkrValues {
    pub nb_dp: u64,
    pub mid: u64,
    pub npkt: u64,
    pub npkid: u64,
}

// A value too wide for its field.
fn is_wide(v: PkrValues) -> bool
    ensures { result ≡ too_wide pkr_rows (pkr_numbers (pkr_of v)) }
{
    fields::any_wide(&[
        (v.nb_dp, NB_DP),
        (v.mid, MID),
        (v.npkt, NPKT),
        (v.npkid, NPKID),
    ])
}

// Each check in its order. (The parts stay apart, as the public function is lent them.)
fn check(
    dsm: &[u8],
    id: u64,
    v: PkrValues,
    nodes: &[u8],
    key: &[u8],
    padding: &[u8],
) -> Result<(), Refusal>
    ensures { refused_by result ≡ refusal_of (pkr_checks dsm.now id (pkr_of v) nodes.now key.now padding.now) }
{
    if dsm.len() != 208 {
        return Err(Refusal::SliceLength);
    }
    if nodes.len() != 128 {
        return Err(Refusal::SliceLength);
    }
    if is_wide(v) {
        return Err(Refusal::Argument);
    }
    if id < 12 {
        return Err(Refusal::Argument);
    }
    if 15 < id {
        return Err(Refusal::Argument);
    }
    let blocks = fields::listed(dsm_pkr::BLOCKS, v.nb_dp)?;
    let Some(size) = dsm_pkr::key_length(v.npkt, blocks) else {
        return Err(Refusal::Reserved);
    };
    let k = size as usize;
    if key.len() != k {
        return Err(Refusal::Lengths);
    }
    if (13 * usize::from(blocks)).checked_sub(NPK_BYTE + k) != Some(padding.len()) {
        return Err(Refusal::Lengths);
    }
    Ok(())
}

// The parts of the message, one behind the other.
fn put_message(dsm: &mut [u8], v: PkrValues, nodes: &[u8], key: &[u8], padding: &[u8])
    requires { (Halves v) × (length nodes.now ≡ 128) × (130 + length key.now + length padding.now ≤ length dsm.old) }
    ensures { dsm.new ≡ over (pkr_message (pkr_of v) nodes.now key.now padding.now) dsm.old }
{
    let k = NPK_BYTE + key.len();
    let first = fields::placed(v.nb_dp, NB_DP, ITN.first) + fields::placed(v.mid, MID, ITN.first);
    fields::put_number(dsm, 0, 1, first);
    fields::put(dsm, ITN.first / 8, nodes);
    let end = 8 * NPK_BYTE;
    let second = fields::placed(v.npkt, NPKT, end) + fields::placed(v.npkid, NPKID, end);
    fields::put_number(dsm, NPKT.first / 8, 1, second);
    fields::put(dsm, NPK_BYTE, key);
    fields::put(dsm, k, padding);
}

// A writer of its own beside `write_kroot`: other parts and other checks, of which no line is the same but the calls.
// Writes a PKR message of that ID from its raw numbers and its parts; the bytes after its end keep their contents.
// Refuses 1 for lent bytes other than 208 or nodes other than 128, 7 for a value too wide for its field or an ID other than 12 to
// 15, 6 for a reserved count or key type, and 11 where the key has another length than its type says or the parts do not fill the
// counted blocks.
pub fn write_pkr(
    dsm: &mut [u8],
    id: u64,
    values: PkrValues,
    nodes: &[u8],
    key: &[u8],
    padding: &[u8],
) -> Result<CompleteDsm, Refusal>
    ensures { WritePkr dsm.old id values nodes.now key.now padding.now result dsm.new }
{
    check(dsm, id, values, nodes, key, padding)?;
    put_message(dsm, values, nodes, key, padding);
    Ok(CompleteDsm {
        id: id as u8,
        dsm_type: DsmType::Pkr,
        bytes: NPK_BYTE + key.len() + padding.len(),
    })
}

// The raw numbers of a PKR message, for `write_pkr`. Refuses 5 where the message ends before NPKID does.
pub fn pkr_values(msg: &[u8]) -> Result<PkrValues, Refusal>
    ensures { ReadPkrValues msg.now result }
{
    if msg.len() < NPK_BYTE {
        return Err(Refusal::MessageEnds);
    }
    Ok(PkrValues {
        nb_dp: fields::stands(msg, NB_DP),
        mid: fields::stands(msg, MID),
        npkt: fields::stands(msg, NPKT),
        npkid: fields::stands(msg, NPKID),
    })
}
