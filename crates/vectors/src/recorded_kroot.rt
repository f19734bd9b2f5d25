// Functions 10 to 24: DSM-KROOT.
use crate::found;
use crate::found::Found;
use layouts::dsm_kroot;
use layouts::dsm_kroot::{EcdsaFunction, HashFunction, MacFunction};

fn hash_function(msg: &[u8]) -> Found {
    found::named(
        dsm_kroot::hash_function_number(msg),
        dsm_kroot::hash_function(msg),
        |name, v| match name {
            HashFunction::Sha256 => v == 0,
            HashFunction::Sha3_256 => v == 2,
            HashFunction::Reserved => !matches!(v, 0 | 2),
        },
    )
}

fn mac_function(msg: &[u8]) -> Found {
    found::named(
        dsm_kroot::mac_function_number(msg),
        dsm_kroot::mac_function(msg),
        |name, v| match name {
            MacFunction::HmacSha256 => v == 0,
            MacFunction::CmacAes => v == 1,
            MacFunction::Reserved => !matches!(v, 0 | 1),
        },
    )
}

// The curve's size in bits.
fn ecdsa_function(msg: &[u8]) -> Found {
    match dsm_kroot::ecdsa_function(msg) {
        Ok(EcdsaFunction::P256Sha256) => found::value(256),
        Ok(EcdsaFunction::P521Sha512) => found::value(521),
        Err(refusal) => found::refused(refusal, true),
    }
}

// By the number in the file: `recorded::answer` says why a match.
fn field(function: u8, msg: &[u8]) -> Option<Found> {
    Some(match function {
        10 => Found::from(dsm_kroot::number_of_blocks(msg)),
        11 => Found::from(dsm_kroot::public_key_id(msg)),
        12 => Found::from(dsm_kroot::kroot_chain_id(msg)),
        13 => hash_function(msg),
        14 => mac_function(msg),
        15 => Found::from(dsm_kroot::key_size(msg)),
        16 => Found::from(dsm_kroot::tag_size(msg)),
        17 => Found::from(dsm_kroot::mac_lookup_table(msg)),
        18 => Found::from(dsm_kroot::kroot_wn(msg)),
        19 => Found::from(dsm_kroot::kroot_towh(msg)),
        20 => Found::from(dsm_kroot::alpha(msg)),
        21 => ecdsa_function(msg),
        _ => return None,
    })
}

// By the number in the file: `recorded::answer` says why a match.
pub(crate) fn answer(function: u8, msg: &[u8]) -> Option<Found> {
    Some(match function {
        22 => found::part(msg, dsm_kroot::kroot_shown(msg), dsm_kroot::kroot(msg)),
        23 => found::part(
            msg,
            dsm_kroot::digital_signature_shown(msg),
            dsm_kroot::digital_signature(msg),
        ),
        24 => found::part(msg, dsm_kroot::padding_shown(msg), dsm_kroot::padding(msg)),
        _ => return field(function, msg),
    })
}
