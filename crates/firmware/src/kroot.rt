// DSM-KROOT.
ghost use Rattle.firmware.specs.Kroot.{KrootNumberOfBlocks, KrootPublicKeyId, KrootChainId, KrootHashFunction, KrootMacFunction};
ghost use Rattle.firmware.specs.Kroot.{KrootKeySize, KrootTagSize, KrootMacLookupTable, KrootWn, KrootTowh, KrootAlpha};
ghost use Rattle.firmware.specs.Kroot.{KrootKroot, KrootDigitalSignature, KrootPadding, KrootEcdsaFunction};

use crate::tell;
use layouts::dsm_kroot;

// NB_DK, as a number of blocks: 5, 6.
#[unsafe(no_mangle)]
pub extern "C" fn osnma_kroot_number_of_blocks(msg: &[u8], value: &mut u64) -> u32
    ensures { KrootNumberOfBlocks msg.now value.old result value.new }
{
    tell::number(dsm_kroot::number_of_blocks(msg), value)
}

// PKID: 5.
#[unsafe(no_mangle)]
pub extern "C" fn osnma_kroot_public_key_id(msg: &[u8], value: &mut u64) -> u32
    ensures { KrootPublicKeyId msg.now value.old result value.new }
{
    tell::number(dsm_kroot::public_key_id(msg), value)
}

// CIDKR: 5.
#[unsafe(no_mangle)]
pub extern "C" fn osnma_kroot_chain_id(msg: &[u8], value: &mut u64) -> u32
    ensures { KrootChainId msg.now value.old result value.new }
{
    tell::number(dsm_kroot::kroot_chain_id(msg), value)
}

// HF, as it stands: 5.
#[unsafe(no_mangle)]
pub extern "C" fn osnma_kroot_hash_function(msg: &[u8], value: &mut u64) -> u32
    ensures { KrootHashFunction msg.now value.old result value.new }
{
    tell::number(dsm_kroot::hash_function_number(msg), value)
}

// MF, as it stands: 5.
#[unsafe(no_mangle)]
pub extern "C" fn osnma_kroot_mac_function(msg: &[u8], value: &mut u64) -> u32
    ensures { KrootMacFunction msg.now value.old result value.new }
{
    tell::number(dsm_kroot::mac_function_number(msg), value)
}

// KS, in bytes: 5, 6.
#[unsafe(no_mangle)]
pub extern "C" fn osnma_kroot_key_size_bytes(msg: &[u8], key_size_bytes: &mut u64) -> u32
    ensures { KrootKeySize msg.now key_size_bytes.old result key_size_bytes.new }
{
    tell::number(dsm_kroot::key_size(msg), key_size_bytes)
}

// TS, in bits: 5, 6.
#[unsafe(no_mangle)]
pub extern "C" fn osnma_kroot_tag_size(msg: &[u8], tag_size_bits: &mut u64) -> u32
    ensures { KrootTagSize msg.now tag_size_bits.old result tag_size_bits.new }
{
    tell::number(dsm_kroot::tag_size(msg), tag_size_bits)
}

// MACLT: 5.
#[unsafe(no_mangle)]
pub extern "C" fn osnma_kroot_mac_lookup_table(msg: &[u8], value: &mut u64) -> u32
    ensures { KrootMacLookupTable msg.now value.old result value.new }
{
    tell::number(dsm_kroot::mac_lookup_table(msg), value)
}

// WN_K: 5.
#[unsafe(no_mangle)]
pub extern "C" fn osnma_kroot_wn(msg: &[u8], value: &mut u64) -> u32
    ensures { KrootWn msg.now value.old result value.new }
{
    tell::number(dsm_kroot::kroot_wn(msg), value)
}

// TOWH_K, in hours: 5.
#[unsafe(no_mangle)]
pub extern "C" fn osnma_kroot_towh(msg: &[u8], value: &mut u64) -> u32
    ensures { KrootTowh msg.now value.old result value.new }
{
    tell::number(dsm_kroot::kroot_towh(msg), value)
}

// alpha: 5.
#[unsafe(no_mangle)]
pub extern "C" fn osnma_kroot_alpha(msg: &[u8], value: &mut u64) -> u32
    ensures { KrootAlpha msg.now value.old result value.new }
{
    tell::number(dsm_kroot::alpha(msg), value)
}

// KROOT: 5, 6, 5.
#[unsafe(no_mangle)]
pub extern "C" fn osnma_kroot_kroot(msg: &[u8], first: &mut u64, many: &mut u64) -> u32
    ensures { KrootKroot msg.now first.old many.old result first.new many.new }
{
    tell::part(dsm_kroot::kroot_shown(msg), first, many)
}

// DS: 5, 6, 5, 11.
#[unsafe(no_mangle)]
pub extern "C" fn osnma_kroot_digital_signature(msg: &[u8], first: &mut u64, many: &mut u64) -> u32
    ensures { KrootDigitalSignature msg.now first.old many.old result first.new many.new }
{
    tell::part(dsm_kroot::digital_signature_shown(msg), first, many)
}

// P_DK: 5, 6, 5, 11.
#[unsafe(no_mangle)]
pub extern "C" fn osnma_kroot_padding(msg: &[u8], first: &mut u64, many: &mut u64) -> u32
    ensures { KrootPadding msg.now first.old many.old result first.new many.new }
{
    tell::part(dsm_kroot::padding_shown(msg), first, many)
}

// The signature's function, 256 or 521: 5, 6, 5, 11.
#[unsafe(no_mangle)]
pub extern "C" fn osnma_kroot_ecdsa_function(msg: &[u8], value: &mut u64) -> u32
    ensures { KrootEcdsaFunction msg.now value.old result value.new }
{
    tell::ecdsa(dsm_kroot::ecdsa_function(msg), value)
}
