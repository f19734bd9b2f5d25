// DSM-PKR: a new public key, or an alert, with its place in the Merkle tree, in a message of any length.
ghost use Rattle.std.specs.Prelude.{◌≡◌, ◌+◌, ◌≤◌, length, take, drop};
ghost use Rattle.layouts.specs.Bits.{the, value};
ghost use Rattle.layouts.specs.Sizes.{size, unless_0, pkr_blocks};
ghost use Rattle.layouts.specs.DsmPkr.{
  pkr_layout,
  new_key_sizes,
  NumberOfBlocks,
  MessageId,
  IntermediateTreeNode,
  NewPublicKeyTypeNumber,
  NewPublicKeyTypeRead,
  NewPublicKeyId,
  KeyLength,
  KeySize,
  NewPublicKeyShown,
  NewPublicKey,
  MerkleTreeLeafShown,
  MerkleTreeLeaf,
  PaddingShown,
  Padding,
};

use crate::bits::Field;
use crate::dsm_kroot::EcdsaFunction;
use crate::part::Part;
use crate::refusal::Refusal;
use crate::{bits, part};

// The rows of the layout.
pub const NB_DP: Field = Field { first: 0, width: 4 };

pub const MID: Field = Field { first: 4, width: 4 };

// Node 0; the three others follow, each behind the one before.
pub const ITN: Field = Field {
    first: 8,
    width: 256,
};

pub const NPKT: Field = Field {
    first: 1032,
    width: 4,
};

pub const NPKID: Field = Field {
    first: 1036,
    width: 4,
};

// The byte that the key starts at; the padding follows it.
pub const NPK_BYTE: usize = 130;

#[derive(Clone, Copy, Debug, PartialEq, Eq)]
pub enum NewPublicKeyType {
    EcdsaKey(EcdsaFunction),
    OsnmaAlertMessage,
    Reserved,
}

// A tree node: where it lies, and its bytes.
#[derive(Clone, Copy)]
pub struct TreeNode {
    pub part: Part,
    pub bytes: [u8; 32],
}

// By code; 0 is a reserved one, as in the tables of `dsm_kroot`.
pub const BLOCKS: [u16; 16] = [0, 0, 0, 0, 0, 0, 0, 13, 14, 15, 16, 0, 0, 0, 0, 0];

// NB_DP, as a number of blocks.
#[tactic(auto, using(crate::proofs::Tables::by_table), unfolding(crate::specs::Sizes::pkr_blocks))]
pub fn number_of_blocks(msg: &[u8]) -> Result<u64, Refusal>
    ensures { NumberOfBlocks msg.now result }
{
    bits::size_at(msg, NB_DP, BLOCKS)
}

// MID.
pub fn message_id(msg: &[u8]) -> Result<u64, Refusal>
    ensures { MessageId msg.now result }
{
    bits::number(msg, MID)
}

// The 32 bytes from byte `first` on. Three lines, like the private ones of `subframes` and `transmitter`: a shared one would be public, and no public
// function asks for room.
fn node_at(msg: &[u8], first: usize) -> [u8; 32]
    requires { first + 32 ≤ length msg.now }
    ensures { result ≡ take 32 (drop first msg.now) }
{
    let mut node = [0u8; 32];
    let end = first + 32;
    node.copy_from_slice(&msg[first..end]);
    node
}

// ITN: node 0 to 3; 7 for another.
pub fn intermediate_tree_node(msg: &[u8], node_number: usize) -> Result<TreeNode, Refusal>
    ensures { IntermediateTreeNode msg.now node_number result }
{
    if 3 < node_number {
        return Err(Refusal::Argument);
    }
    let first = ITN.first / 8 + ITN.width / 8 * node_number;
    let part = part::within(msg, first, 32)?;
    let bytes = node_at(msg, first);
    Ok(TreeNode { part, bytes })
}

// NPKT, as it stands: 0 to 15.
pub fn new_public_key_type_number(msg: &[u8]) -> Result<u64, Refusal>
    ensures { NewPublicKeyTypeNumber msg.now result }
{
    bits::number(msg, NPKT)
}

// NPKT. A name by a match, as in `nma_header`: it is read at one place.
pub fn new_public_key_type(msg: &[u8]) -> Result<NewPublicKeyType, Refusal>
    ensures { NewPublicKeyTypeRead msg.now result }
{
    Ok(match new_public_key_type_number(msg)? {
        1 => NewPublicKeyType::EcdsaKey(EcdsaFunction::P256Sha256),
        3 => NewPublicKeyType::EcdsaKey(EcdsaFunction::P521Sha512),
        4 => NewPublicKeyType::OsnmaAlertMessage,
        _ => NewPublicKeyType::Reserved,
    })
}

// NPKID.
pub fn new_public_key_id(msg: &[u8]) -> Result<u64, Refusal>
    ensures { NewPublicKeyId msg.now result }
{
    bits::number(msg, NPKID)
}

// The number of blocks; none where it is reserved.
fn blocks(msg: &[u8]) -> Option<u16>
    requires { 1 ≤ length msg.now }
    ensures { result ≡ unless_0 (size pkr_blocks (value (the "NB_DP" pkr_layout) msg.now)) }
{
    let n = number_of_blocks(msg).ok()?;
    Some(n as u16)
}

// The bytes of a key of that type in a message of so many blocks: none for a reserved type, and for an alert in ten or fewer.
#[tactic(auto, using(crate::proofs::Pkr::lengths))]
pub fn key_length(kind: u64, blocks: u16) -> Option<u64>
    ensures { KeyLength kind blocks result }
{
    match kind {
        1 => Some(33),
        3 => Some(67),
        4 => {
            if blocks <= 10 {
                return None;
            }
            Some(13 * u64::from(blocks) - 130)
        }
        _ => None,
    }
}

// The size of the new key, in bytes. An alert has none where the number of blocks is reserved.
pub fn key_size(msg: &[u8]) -> Result<u64, Refusal>
    ensures { KeySize msg.now result }
{
    let kind = new_public_key_type_number(msg)?;
    key_length(kind, blocks(msg).unwrap_or(0)).ok_or(Refusal::Reserved)
}

// NPK: whether it is shown, and where it lies. Two lines like `dsm_kroot::kroot_shown`, with another size and another byte.
pub fn new_public_key_shown(msg: &[u8]) -> Result<Part, Refusal>
    ensures { NewPublicKeyShown msg.now result }
{
    let size = key_size(msg)?;
    part::within(msg, NPK_BYTE, size as usize)
}

// NPK: its bytes, none where `new_public_key_shown` refuses.
#[tactic(auto, using(crate::proofs::Pkr::new_key_inside))]
pub fn new_public_key(msg: &[u8]) -> &[u8]
    ensures { NewPublicKey msg.now result.now }
{
    part::shown(msg, new_public_key_shown(msg))
}

// The Merkle tree leaf, key type, key ID and key: whether it is shown, and where it lies.
pub fn merkle_tree_leaf_shown(msg: &[u8]) -> Result<Part, Refusal>
    ensures { MerkleTreeLeafShown msg.now result }
{
    let size = key_size(msg)?;
    part::within(msg, NPKT.first / 8, 1 + size as usize)
}

// The Merkle tree leaf: its bytes, none where `merkle_tree_leaf_shown` refuses.
#[tactic(auto, using(crate::proofs::Pkr::leaf_inside))]
pub fn merkle_tree_leaf(msg: &[u8]) -> &[u8]
    ensures { MerkleTreeLeaf msg.now result.now }
{
    part::shown(msg, merkle_tree_leaf_shown(msg))
}

// P_DP: whether it is shown, and where it lies.
pub fn padding_shown(msg: &[u8]) -> Result<Part, Refusal>
    ensures { PaddingShown msg.now result }
{
    let size = key_size(msg)?;
    let n = blocks(msg).ok_or(Refusal::Reserved)?;
    let start = NPK_BYTE as u64 + size;
    let end = 13 * u64::from(n);
    if end < start {
        return Err(Refusal::Lengths);
    }
    part::within(msg, start as usize, (end - start) as usize)
}

// P_DP: its bytes, none where `padding_shown` refuses.
#[tactic(auto, using(crate::proofs::Pkr::padding_inside))]
pub fn padding(msg: &[u8]) -> &[u8]
    ensures { Padding msg.now result.now }
{
    part::shown(msg, padding_shown(msg))
}
