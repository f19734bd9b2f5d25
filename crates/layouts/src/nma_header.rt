// The NMA header, the first byte of an HKROOT message. Nothing here refuses.
ghost use Rattle.layouts.specs.NmaHeader.{NmaStatusRead, ChainIdRead, ChainAndPubkeyStatusRead};

use crate::bits;
use crate::bits::Field;

pub const NMAS: Field = Field { first: 0, width: 2 };

pub const CID: Field = Field { first: 2, width: 2 };

pub const CPKS: Field = Field { first: 4, width: 3 };

#[derive(Clone, Copy, Debug, PartialEq, Eq)]
pub enum NmaStatus {
    Reserved,
    Test,
    Operational,
    DontUse,
}

#[derive(Clone, Copy, Debug, PartialEq, Eq)]
pub enum ChainAndPubkeyStatus {
    Reserved,
    Nominal,
    EndOfChain,
    ChainRevoked,
    NewPublicKey,
    PublicKeyRevoked,
    NewMerkleTree,
    AlertMessage,
}

// NMAS. Here and below a name by a match, and no `From`: each name is read at one place, and the arms would be the same.
#[tactic(auto, using(crate::proofs::Fields::field_lt))]
pub fn nma_status(header: u8) -> NmaStatus
    ensures { NmaStatusRead header result }
{
    let v = bits::of_byte(header, NMAS);
    match v {
        0 => NmaStatus::Reserved,
        1 => NmaStatus::Test,
        2 => NmaStatus::Operational,
        _ => NmaStatus::DontUse,
    }
}

// CID.
pub fn chain_id(header: u8) -> u8
    ensures { ChainIdRead header result }
{
    bits::of_byte(header, CID)
}

// CPKS.
#[tactic(auto, using(crate::proofs::Fields::says, crate::proofs::Fields::field_lt))]
pub fn chain_and_pubkey_status(header: u8) -> ChainAndPubkeyStatus
    ensures { ChainAndPubkeyStatusRead header result }
{
    let v = bits::of_byte(header, CPKS);
    match v {
        0 => ChainAndPubkeyStatus::Reserved,
        1 => ChainAndPubkeyStatus::Nominal,
        2 => ChainAndPubkeyStatus::EndOfChain,
        3 => ChainAndPubkeyStatus::ChainRevoked,
        4 => ChainAndPubkeyStatus::NewPublicKey,
        5 => ChainAndPubkeyStatus::PublicKeyRevoked,
        6 => ChainAndPubkeyStatus::NewMerkleTree,
        _ => ChainAndPubkeyStatus::AlertMessage,
    }
}
