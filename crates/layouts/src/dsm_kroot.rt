// DSM-KROOT: the root key of the TESLA chain and its parameters, in a message of any length.
ghost use Rattle.std.specs.Prelude.{◌≡◌, ◌≤◌};
ghost use Rattle.layouts.specs.Sizes.{unless_0};
ghost use Rattle.layouts.specs.DsmKroot.{
  NumberOfBlocks,
  PublicKeyId,
  KrootChainId,
  HashFunctionNumber,
  HashFunctionRead,
  MacFunctionNumber,
  MacFunctionRead,
  KeySize,
  TagSize,
  MacLookupTable,
  KrootWn,
  KrootTowh,
  Alpha,
  EcdsaFunctionRead,
  KrootShown,
  Kroot,
  DigitalSignatureShown,
  DigitalSignature,
  PaddingShown,
  Padding,
  padding_to_block,
  signature_length,
};

use crate::bits::Field;
use crate::part::Part;
use crate::refusal::Refusal;
use crate::{bits, part};

// The rows of the layout that are read.
pub const NB_DK: Field = Field { first: 0, width: 4 };

pub const PKID: Field = Field { first: 4, width: 4 };

pub const CIDKR: Field = Field { first: 8, width: 2 };

pub const HF: Field = Field {
    first: 12,
    width: 2,
};

pub const MF: Field = Field {
    first: 14,
    width: 2,
};

pub const KS: Field = Field {
    first: 16,
    width: 4,
};

pub const TS: Field = Field {
    first: 20,
    width: 4,
};

pub const MACLT: Field = Field {
    first: 24,
    width: 8,
};

pub const WN_K: Field = Field {
    first: 36,
    width: 12,
};

pub const TOWH_K: Field = Field {
    first: 48,
    width: 8,
};

pub const ALPHA: Field = Field {
    first: 56,
    width: 48,
};

// The byte that the key starts at; the signature follows it, and the padding follows the signature.
pub const KROOT_BYTE: usize = 13;

#[derive(Clone, Copy, Debug, PartialEq, Eq)]
pub enum HashFunction {
    Sha256,
    Sha3_256,
    Reserved,
}

#[derive(Clone, Copy, Debug, PartialEq, Eq)]
pub enum MacFunction {
    HmacSha256,
    CmacAes,
    Reserved,
}

#[derive(Clone, Copy, Debug, PartialEq, Eq)]
pub enum EcdsaFunction {
    P256Sha256 = 256,
    P521Sha512 = 521,
}

// By code; 0 is a reserved one, and not `None`: eleven times `Some` would hide the numbers that stand here as in the paper. Tables of numbers, not of Options: `both_22_for_20` of must-fail/ names one as it stands.
pub const BLOCKS: [u16; 16] = [0, 7, 8, 9, 10, 11, 12, 13, 14, 0, 0, 0, 0, 0, 0, 0];

pub const KEY_SIZES: [u16; 16] = [12, 13, 14, 15, 16, 20, 24, 28, 32, 0, 0, 0, 0, 0, 0, 0];

pub const TAG_SIZES: [u16; 16] = [0, 0, 0, 0, 0, 20, 24, 28, 32, 40, 0, 0, 0, 0, 0, 0];

// NB_DK, as a number of blocks.
#[tactic(auto, using(crate::proofs::Tables::by_table), unfolding(crate::specs::Sizes::kroot_blocks))]
pub fn number_of_blocks(msg: &[u8]) -> Result<u64, Refusal>
    ensures { NumberOfBlocks msg.now result }
{
    bits::size_at(msg, NB_DK, BLOCKS)
}

// PKID.
pub fn public_key_id(msg: &[u8]) -> Result<u64, Refusal>
    ensures { PublicKeyId msg.now result }
{
    bits::number(msg, PKID)
}

// CIDKR.
pub fn kroot_chain_id(msg: &[u8]) -> Result<u64, Refusal>
    ensures { KrootChainId msg.now result }
{
    bits::number(msg, CIDKR)
}

// HF, as it stands: 0 to 3.
pub fn hash_function_number(msg: &[u8]) -> Result<u64, Refusal>
    ensures { HashFunctionNumber msg.now result }
{
    bits::number(msg, HF)
}

// HF. Here and below a name by a match, as in `nma_header`: each is read at one place.
pub fn hash_function(msg: &[u8]) -> Result<HashFunction, Refusal>
    ensures { HashFunctionRead msg.now result }
{
    Ok(match hash_function_number(msg)? {
        0 => HashFunction::Sha256,
        2 => HashFunction::Sha3_256,
        _ => HashFunction::Reserved,
    })
}

// MF, as it stands: 0 to 3.
pub fn mac_function_number(msg: &[u8]) -> Result<u64, Refusal>
    ensures { MacFunctionNumber msg.now result }
{
    bits::number(msg, MF)
}

// MF.
pub fn mac_function(msg: &[u8]) -> Result<MacFunction, Refusal>
    ensures { MacFunctionRead msg.now result }
{
    Ok(match mac_function_number(msg)? {
        0 => MacFunction::HmacSha256,
        1 => MacFunction::CmacAes,
        _ => MacFunction::Reserved,
    })
}

// KS, as a size in bytes.
#[tactic(auto, using(crate::proofs::Tables::by_table), unfolding(crate::specs::Sizes::key_sizes))]
pub fn key_size(msg: &[u8]) -> Result<u64, Refusal>
    ensures { KeySize msg.now result }
{
    bits::size_at(msg, KS, KEY_SIZES)
}

// TS, as a size in bits.
#[tactic(auto, using(crate::proofs::Tables::by_table), unfolding(crate::specs::Sizes::tag_sizes))]
pub fn tag_size(msg: &[u8]) -> Result<u64, Refusal>
    ensures { TagSize msg.now result }
{
    bits::size_at(msg, TS, TAG_SIZES)
}

// MACLT.
pub fn mac_lookup_table(msg: &[u8]) -> Result<u64, Refusal>
    ensures { MacLookupTable msg.now result }
{
    bits::number(msg, MACLT)
}

// WN_K.
pub fn kroot_wn(msg: &[u8]) -> Result<u64, Refusal>
    ensures { KrootWn msg.now result }
{
    bits::number(msg, WN_K)
}

// TOWH_K, in hours.
pub fn kroot_towh(msg: &[u8]) -> Result<u64, Refusal>
    ensures { KrootTowh msg.now result }
{
    bits::number(msg, TOWH_K)
}

// The random pattern alpha.
pub fn alpha(msg: &[u8]) -> Result<u64, Refusal>
    ensures { Alpha msg.now result }
{
    bits::number(msg, ALPHA)
}

// KROOT: whether it is shown, and where it lies.
pub fn kroot_shown(msg: &[u8]) -> Result<Part, Refusal>
    ensures { KrootShown msg.now result }
{
    let size = key_size(msg)?;
    part::within(msg, KROOT_BYTE, size as usize)
}

// KROOT: its bytes, none where `kroot_shown` refuses.
#[tactic(auto, using(crate::proofs::Kroot::kroot_inside))]
pub fn kroot(msg: &[u8]) -> &[u8]
    ensures { Kroot msg.now result.now }
{
    part::shown(msg, kroot_shown(msg))
}

// How many bytes are missing to whole blocks of 13.
#[tactic(auto, unfolding(crate::specs::DsmKroot::padding_to_block))]
fn padding_to_block(len: usize) -> usize
    ensures { result ≡ padding_to_block len }
{
    (13 - len % 13) % 13
}

// The length of the signature that with its padding fills `rest` bytes behind a key of `key` bytes.
#[tactic(auto, using(crate::proofs::Kroot::lengths))]
fn signature_length(key: usize, rest: usize) -> Option<usize>
    requires { key ≤ 32 }
    ensures { result ≡ unless_0 (signature_length key rest) }
{
    if rest == 64 + padding_to_block(key + 64) {
        return Some(64);
    }
    if rest == 132 + padding_to_block(key + 132) {
        return Some(132);
    }
    None
}

// DS: whether it is shown, and where it lies.
pub fn digital_signature_shown(msg: &[u8]) -> Result<Part, Refusal>
    ensures { DigitalSignatureShown msg.now result }
{
    let key = kroot_shown(msg)?;
    let start = key.first + key.many;
    let len = signature_length(key.many, msg.len() - start).ok_or(Refusal::Lengths)?;
    part::within(msg, start, len)
}

// DS: its bytes, none where `digital_signature_shown` refuses.
#[tactic(auto, using(crate::proofs::Kroot::signature_inside))]
pub fn digital_signature(msg: &[u8]) -> &[u8]
    ensures { DigitalSignature msg.now result.now }
{
    part::shown(msg, digital_signature_shown(msg))
}

// The signature's function, told by its length.
pub fn ecdsa_function(msg: &[u8]) -> Result<EcdsaFunction, Refusal>
    ensures { EcdsaFunctionRead msg.now result }
{
    let signature = digital_signature_shown(msg)?;
    if signature.many == 64 {
        return Ok(EcdsaFunction::P256Sha256);
    }
    Ok(EcdsaFunction::P521Sha512)
}

// P_DK: whether it is shown, and where it lies.
pub fn padding_shown(msg: &[u8]) -> Result<Part, Refusal>
    ensures { PaddingShown msg.now result }
{
    let signature = digital_signature_shown(msg)?;
    let start = signature.first + signature.many;
    part::within(msg, start, msg.len() - start)
}

// P_DK: its bytes, none where `padding_shown` refuses.
#[tactic(auto, using(crate::proofs::Kroot::padding_inside))]
pub fn padding(msg: &[u8]) -> &[u8]
    ensures { Padding msg.now result.now }
{
    part::shown(msg, padding_shown(msg))
}
