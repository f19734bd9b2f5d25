// Functions 1 to 6: the two headers.
use crate::found;
use crate::found::Found;
use layouts::dsm_header::DsmType;
use layouts::nma_header::{ChainAndPubkeyStatus, NmaStatus};
use layouts::{dsm_header, nma_header};

// By name, and not by the discriminants, which are what is held to the file: here, in `recorded_table`, `recorded_slots` and `sequence_calls`.
fn nma_status(header: u8) -> u8 {
    match nma_header::nma_status(header) {
        NmaStatus::Reserved => 0,
        NmaStatus::Test => 1,
        NmaStatus::Operational => 2,
        NmaStatus::DontUse => 3,
    }
}

fn chain_and_pubkey_status(header: u8) -> u8 {
    match nma_header::chain_and_pubkey_status(header) {
        ChainAndPubkeyStatus::Reserved => 0,
        ChainAndPubkeyStatus::Nominal => 1,
        ChainAndPubkeyStatus::EndOfChain => 2,
        ChainAndPubkeyStatus::ChainRevoked => 3,
        ChainAndPubkeyStatus::NewPublicKey => 4,
        ChainAndPubkeyStatus::PublicKeyRevoked => 5,
        ChainAndPubkeyStatus::NewMerkleTree => 6,
        ChainAndPubkeyStatus::AlertMessage => 7,
    }
}

fn dsm_type(header: u8) -> u8 {
    match dsm_header::dsm_type(header) {
        DsmType::Kroot => 0,
        DsmType::Pkr => 1,
    }
}

// By the number in the file: `recorded::answer` says why a match.
pub(crate) fn answer(function: u8, header: usize) -> Option<Found> {
    let header = u8::try_from(header).ok()?;
    let v = match function {
        1 => nma_status(header),
        2 => nma_header::chain_id(header),
        3 => chain_and_pubkey_status(header),
        4 => dsm_header::dsm_id(header),
        5 => dsm_header::dsm_block_id(header),
        6 => dsm_type(header),
        _ => return None,
    };
    Some(found::value(u64::from(v)))
}
