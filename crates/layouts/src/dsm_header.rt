// The DSM header, the second byte of an HKROOT message. Nothing here refuses.
ghost use Rattle.layouts.specs.DsmHeader.{DsmIdRead, DsmBlockIdRead, DsmTypeRead};

use crate::bits;
use crate::bits::Field;

pub const DSM_ID: Field = Field { first: 0, width: 4 };

pub const DSM_BLOCK_ID: Field = Field { first: 4, width: 4 };

#[derive(Clone, Copy, Debug, PartialEq, Eq)]
pub enum DsmType {
    Kroot,
    Pkr,
}

pub fn dsm_id(header: u8) -> u8
    ensures { DsmIdRead header result }
{
    bits::of_byte(header, DSM_ID)
}

pub fn dsm_block_id(header: u8) -> u8
    ensures { DsmBlockIdRead header result }
{
    bits::of_byte(header, DSM_BLOCK_ID)
}

pub fn dsm_type(header: u8) -> DsmType
    ensures { DsmTypeRead header result }
{
    if dsm_id(header) < 12 {
        return DsmType::Kroot;
    }
    DsmType::Pkr
}
