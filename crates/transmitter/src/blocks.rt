// The blocks that a message is sent in, each with its header byte.
ghost use Rattle.std.specs.Prelude.{◌≡◌, length};
ghost use Rattle.layouts.specs.Answer.{refusal as refusal_of};
ghost use Rattle.layouts.specs.Refusals.{refused_by};
ghost use Rattle.transmitter.specs.Write.{blocks as blocks_of, cut_checks};
ghost use Rattle.transmitter.specs.WritePromises.{CutBlock};
ghost use Rattle.transmitter.specs.inner.Parts.{sized};

use crate::fields;
use layouts::dsm_header::{DSM_BLOCK_ID, DSM_ID};
use layouts::refusal::Refusal;
use layouts::{dsm_kroot, dsm_pkr};

// A block with its header byte.
#[derive(Clone, Copy)]
pub struct BlockCut {
    pub header: u8,
    pub bytes: [u8; 13],
}

// The number of blocks that byte 0 counts: 6 where it is reserved. (The collector's own count, in `dsms`, is by type and tells no refusal.)
fn counted(dsm: &[u8], id: u64) -> Result<u64, Refusal>
    requires { length dsm.now ≡ 208 }
    ensures { result ≡ sized (blocks_of dsm.now id) }
{
    if id < 12 {
        return dsm_kroot::number_of_blocks(dsm);
    }
    dsm_pkr::number_of_blocks(dsm)
}

// 1 for other than 208 bytes, 7 for an ID or a number above 15, 6 for a reserved count, 7 for a number at or above the count.
fn check(dsm: &[u8], id: u64, n: u64) -> Result<(), Refusal>
    ensures { refused_by result ≡ refusal_of (cut_checks dsm.now id n) }
{
    if dsm.len() != 208 {
        return Err(Refusal::SliceLength);
    }
    if 15 < id {
        return Err(Refusal::Argument);
    }
    if 15 < n {
        return Err(Refusal::Argument);
    }
    if counted(dsm, id)? <= n {
        return Err(Refusal::Argument);
    }
    Ok(())
}

// Block `n` of what stands in the lent bytes, for a DSM of that ID. Refuses 1 for other than 208 bytes, 7 for an ID or a number
// above 15, 6 for a reserved count, and 7 for a number at or above the count.
pub fn block(dsm: &[u8], id: u64, n: u64) -> Result<BlockCut, Refusal>
    ensures { CutBlock dsm.now id n result }
{
    check(dsm, id, n)?;
    let header = fields::placed(id, DSM_ID, 8) + fields::placed(n, DSM_BLOCK_ID, 8);
    let first = 13 * n as usize;
    let part = &dsm[first..first + 13];
    let mut bytes = [0; 13];
    bytes.copy_from_slice(part);
    Ok(BlockCut {
        header: header as u8,
        bytes,
    })
}
