// DSM-PKR.
ghost use Rattle.firmware.specs.Pkr.{PkrNumberOfBlocks, PkrMessageId, PkrNewPublicKeyType, PkrNewPublicKeyId, PkrKeySize};
ghost use Rattle.firmware.specs.Pkr.{PkrNewPublicKey, PkrPadding, PkrMerkleTreeLeaf, PkrIntermediateTreeNode};

use crate::tell;
use layouts::dsm_pkr;

// NB_DP, as a number of blocks: 5, 6.
#[unsafe(no_mangle)]
pub extern "C" fn osnma_pkr_number_of_blocks(msg: &[u8], value: &mut u64) -> u32
    ensures { PkrNumberOfBlocks msg.now value.old result value.new }
{
    tell::number(dsm_pkr::number_of_blocks(msg), value)
}

// MID: 5.
#[unsafe(no_mangle)]
pub extern "C" fn osnma_pkr_message_id(msg: &[u8], value: &mut u64) -> u32
    ensures { PkrMessageId msg.now value.old result value.new }
{
    tell::number(dsm_pkr::message_id(msg), value)
}

// NPKT, as it stands: 5.
#[unsafe(no_mangle)]
pub extern "C" fn osnma_pkr_new_public_key_type(msg: &[u8], value: &mut u64) -> u32
    ensures { PkrNewPublicKeyType msg.now value.old result value.new }
{
    tell::number(dsm_pkr::new_public_key_type_number(msg), value)
}

// NPKID: 5.
#[unsafe(no_mangle)]
pub extern "C" fn osnma_pkr_new_public_key_id(msg: &[u8], value: &mut u64) -> u32
    ensures { PkrNewPublicKeyId msg.now value.old result value.new }
{
    tell::number(dsm_pkr::new_public_key_id(msg), value)
}

// The size of the new key, in bytes: 5, 6.
#[unsafe(no_mangle)]
pub extern "C" fn osnma_pkr_key_size(msg: &[u8], key_size_bytes: &mut u64) -> u32
    ensures { PkrKeySize msg.now key_size_bytes.old result key_size_bytes.new }
{
    tell::number(dsm_pkr::key_size(msg), key_size_bytes)
}

// NPK: 5, 6, 5.
#[unsafe(no_mangle)]
pub extern "C" fn osnma_pkr_new_public_key(msg: &[u8], first: &mut u64, many: &mut u64) -> u32
    ensures { PkrNewPublicKey msg.now first.old many.old result first.new many.new }
{
    tell::part(dsm_pkr::new_public_key_shown(msg), first, many)
}

// P_DP: 5, 6, 6, 11, 5.
#[unsafe(no_mangle)]
pub extern "C" fn osnma_pkr_padding(msg: &[u8], first: &mut u64, many: &mut u64) -> u32
    ensures { PkrPadding msg.now first.old many.old result first.new many.new }
{
    tell::part(dsm_pkr::padding_shown(msg), first, many)
}

// The Merkle tree leaf: 5, 6, 5.
#[unsafe(no_mangle)]
pub extern "C" fn osnma_pkr_merkle_tree_leaf(msg: &[u8], first: &mut u64, many: &mut u64) -> u32
    ensures { PkrMerkleTreeLeaf msg.now first.old many.old result first.new many.new }
{
    tell::part(dsm_pkr::merkle_tree_leaf_shown(msg), first, many)
}

// ITN, node 0 to 3: 7, 5.
#[unsafe(no_mangle)]
pub extern "C" fn osnma_pkr_intermediate_tree_node(
    msg: &[u8],
    node: u64,
    first: &mut u64,
    many: &mut u64,
) -> u32
    ensures { PkrIntermediateTreeNode msg.now node first.old many.old result first.new many.new }
{
    let found = dsm_pkr::intermediate_tree_node(msg, node as usize);
    tell::part(found.map(|n| n.part), first, many)
}
