// Functions 30 to 38: DSM-PKR.
use crate::found;
use crate::found::Found;
use layouts::dsm_kroot::EcdsaFunction;
use layouts::dsm_pkr;
use layouts::dsm_pkr::NewPublicKeyType;

pub(crate) fn key_type(msg: &[u8]) -> Found {
    found::named(
        dsm_pkr::new_public_key_type_number(msg),
        dsm_pkr::new_public_key_type(msg),
        |name, v| match name {
            NewPublicKeyType::EcdsaKey(EcdsaFunction::P256Sha256) => v == 1,
            NewPublicKeyType::EcdsaKey(EcdsaFunction::P521Sha512) => v == 3,
            NewPublicKeyType::OsnmaAlertMessage => v == 4,
            NewPublicKeyType::Reserved => !matches!(v, 1 | 3 | 4),
        },
    )
}

// A tree node by its place, and its bytes by value.
fn node(msg: &[u8], n: usize) -> Found {
    match dsm_pkr::intermediate_tree_node(msg, n) {
        Ok(node) => found::part(msg, Ok(node.part), &node.bytes),
        Err(refusal) => found::refused(refusal, true),
    }
}

// By the number in the file: `recorded::answer` says why a match.
pub(crate) fn answer(function: u8, msg: &[u8], a: usize) -> Option<Found> {
    Some(match function {
        30 => Found::from(dsm_pkr::number_of_blocks(msg)),
        31 => Found::from(dsm_pkr::message_id(msg)),
        32 => key_type(msg),
        33 => Found::from(dsm_pkr::new_public_key_id(msg)),
        34 => Found::from(dsm_pkr::key_size(msg)),
        35 => node(msg, a),
        36 => found::part(
            msg,
            dsm_pkr::new_public_key_shown(msg),
            dsm_pkr::new_public_key(msg),
        ),
        37 => found::part(msg, dsm_pkr::padding_shown(msg), dsm_pkr::padding(msg)),
        38 => found::part(
            msg,
            dsm_pkr::merkle_tree_leaf_shown(msg),
            dsm_pkr::merkle_tree_leaf(msg),
        ),
        _ => return None,
    })
}
