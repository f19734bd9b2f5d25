// DSM-KROOT messages: written from raw numbers, and the raw numbers read back.
ghost use Rattle.std.specs.Prelude.{◌≡◌, ◌||◌, ◌+◌, ◌*◌, ◌^◌, ◌≤◌, length, eqb};
ghost use Rattle.layouts.specs.Answer.{refusal as refusal_of};
ghost use Rattle.layouts.specs.Refusals.{refused_by};
ghost use Rattle.layouts.specs.DsmKroot.{kroot_layout};
ghost use Rattle.layouts.specs.Packed.{packed_on, too_wide};
ghost use Rattle.transmitter.specs.Write.{kroot_numbers, kroot_message, kroot_checks};
ghost use Rattle.transmitter.specs.WritePromises.{kroot_of, WriteKroot, ReadKrootValues};
ghost use Rattle.transmitter.specs.inner.Parts.{over, Narrow};

use crate::fields;
use dsms::dsm::CompleteDsm;
use layouts::dsm_header::DsmType;
use layouts::dsm_kroot;
use layouts::dsm_kroot::{
    ALPHA, CIDKR, HF, KROOT_BYTE, KS, MACLT, MF, NB_DK, PKID, TOWH_K, TS, WN_K,
};
use layouts::refusal::Refusal;

// The padding fills the last block only.
const MOST_PADDING: usize = 12;

// The values of a KROOT message, as they stand in their fields.
#[derive(Clone, Copy)]
pub struct KrootValues {
    pub nb_dk: u64,
    pub pkid: u64,
    pub cidkr: u64,
    pub hf: u64,
    pub mf: u64,
    pub ks: u64,
    pub ts: u64,
    pub maclt: u64,
    pub wn_k: u64,
    pub towh_k: u64,
    pub alpha: u64,
}

// A value too wide for its field.
fn is_wide(v: KrootValues) -> bool
    ensures { result ≡ too_wide kroot_layout (kroot_numbers (kroot_of v)) }
{
    fields::any_wide(&[
        (v.nb_dk, NB_DK),
        (v.pkid, PKID),
        (v.cidkr, CIDKR),
        (v.hf, HF),
        (v.mf, MF),
        (v.ks, KS),
        (v.ts, TS),
        (v.maclt, MACLT),
        (v.wn_k, WN_K),
        (v.towh_k, TOWH_K),
        (v.alpha, ALPHA),
    ])
}

// The two lengths that a signature has.
fn is_signature(many: usize) -> bool
    ensures { result ≡ (eqb many 64 || eqb many 132) }
{
    many == 64 || many == 132
}

// Each check in its order. (The parts stay apart, as the public function is lent them.)
fn check(
    dsm: &[u8],
    id: u64,
    v: KrootValues,
    key: &[u8],
    signature: &[u8],
    padding: &[u8],
) -> Result<(), Refusal>
    ensures { refused_by result ≡ refusal_of (kroot_checks dsm.now id (kroot_of v) key.now signature.now padding.now) }
{
    if dsm.len() != 208 {
        return Err(Refusal::SliceLength);
    }
    let s = signature.len();
    if !is_signature(s) {
        return Err(Refusal::SliceLength);
    }
    if is_wide(v) {
        return Err(Refusal::Argument);
    }
    if 11 < id {
        return Err(Refusal::Argument);
    }
    let blocks = usize::from(fields::listed(dsm_kroot::BLOCKS, v.nb_dk)?);
    let k = usize::from(fields::listed(dsm_kroot::KEY_SIZES, v.ks)?);
    fields::listed(dsm_kroot::TAG_SIZES, v.ts)?;
    let p = padding.len();
    if key.len() != k || MOST_PADDING < p || KROOT_BYTE + k + s + p != 13 * blocks {
        return Err(Refusal::Lengths);
    }
    Ok(())
}

// The bits before alpha as one number.
fn head(v: KrootValues) -> u64
    requires { Narrow v }
    ensures { packed_on 0 kroot_layout (kroot_numbers (kroot_of v)) ≡ result * 2 ^ 48 + v.alpha }
{
    let end = ALPHA.first;
    let counts = fields::placed(v.nb_dk, NB_DK, end) + fields::placed(v.pkid, PKID, end);
    let functions = fields::placed(v.cidkr, CIDKR, end)
        + fields::placed(v.hf, HF, end)
        + fields::placed(v.mf, MF, end);
    let sizes = fields::placed(v.ks, KS, end) + fields::placed(v.ts, TS, end);
    let time = fields::placed(v.wn_k, WN_K, end) + fields::placed(v.towh_k, TOWH_K, end);
    counts + functions + sizes + fields::placed(v.maclt, MACLT, end) + time
}

// The parts of the message, one behind the other.
fn put_message(dsm: &mut [u8], v: KrootValues, key: &[u8], signature: &[u8], padding: &[u8])
    requires { (Narrow v) × (13 + length key.now + length signature.now + length padding.now ≤ length dsm.old) }
    ensures { dsm.new ≡ over (kroot_message (kroot_of v) key.now signature.now padding.now) dsm.old }
{
    fields::put_number(dsm, 0, ALPHA.first / 8, head(v));
    fields::put_number(dsm, ALPHA.first / 8, ALPHA.width / 8, v.alpha);
    fields::put(dsm, KROOT_BYTE, key);
    let k = KROOT_BYTE + key.len();
    fields::put(dsm, k, signature);
    let s = k + signature.len();
    fields::put(dsm, s, padding);
}

// Writes a KROOT message of that ID from its raw numbers and its parts; the bytes after its end keep their contents.
// Refuses 1 for lent bytes other than 208 or a signature of neither length, 7 for a value too wide for its field or an ID above
// 11, 6 for a reserved count or size, and 11 where the key has another length than its size says, the padding has more than 12
// bytes, or the parts do not fill the counted blocks.
pub fn write_kroot(
    dsm: &mut [u8],
    id: u64,
    values: KrootValues,
    key: &[u8],
    signature: &[u8],
    padding: &[u8],
) -> Result<CompleteDsm, Refusal>
    ensures { WriteKroot dsm.old id values key.now signature.now padding.now result dsm.new }
{
    check(dsm, id, values, key, signature, padding)?;
    put_message(dsm, values, key, signature, padding);
    Ok(CompleteDsm {
        id: id as u8,
        dsm_type: DsmType::Kroot,
        bytes: KROOT_BYTE + key.len() + signature.len() + padding.len(),
    })
}

// The raw numbers of a KROOT message, for `write_kroot`. Refuses 5 where the message ends before alpha does.
pub fn kroot_values(msg: &[u8]) -> Result<KrootValues, Refusal>
    ensures { ReadKrootValues msg.now result }
{
    if msg.len() < KROOT_BYTE {
        return Err(Refusal::MessageEnds);
    }
    Ok(KrootValues {
        nb_dk: fields::stands(msg, NB_DK),
        pkid: fields::stands(msg, PKID),
        cidkr: fields::stands(msg, CIDKR),
        hf: fields::stands(msg, HF),
        mf: fields::stands(msg, MF),
        ks: fields::stands(msg, KS),
        ts: fields::stands(msg, TS),
        maclt: fields::stands(msg, MACLT),
        wn_k: fields::stands(msg, WN_K),
        towh_k: fields::stands(msg, TOWH_K),
        alpha: fields::stands(msg, ALPHA),
    })
}
