// The look-up table.
ghost use Rattle.firmware.specs.inner.Ids.{SameId};
ghost use Rattle.firmware.specs.Maclt.{GetMacltEntry, GetFlxIndices, MacltNt};

use crate::tell;

// The ID as the table takes it; 0, which the table has not, for a number that is no byte.
fn table_id(id: u64) -> u8
    ensures { SameId result id }
{
    u8::try_from(id).unwrap_or(0)
}

// The slot of a tag in message 0 or 1: 7, 8, 9. flex is 1 for an FLX slot, else 0 with the ADKD and the object, 0 self and 1 cross.
#[unsafe(no_mangle)]
pub extern "C" fn osnma_get_maclt_entry(
    id: u64,
    message: u64,
    tag: u64,
    flex: &mut u64,
    adkd: &mut u64,
    object: &mut u64,
) -> u32
    ensures { GetMacltEntry id message tag flex.old adkd.old object.old result
        flex.new adkd.new object.new }
{
    tell::slot(
        layouts::maclt::get_maclt_entry(table_id(id), message as usize, tag as usize),
        flex,
        adkd,
        object,
    )
}

// The FLX tags of message 0 or 1 and their count, into four bytes: 1, 7, 8. Zeros stand behind the last.
#[unsafe(no_mangle)]
pub extern "C" fn osnma_get_flx_indices(
    id: u64,
    message: u64,
    count: &mut u64,
    positions: &mut [u8],
) -> u32
    ensures { GetFlxIndices id message count.old positions.old result count.new positions.new }
{
    if positions.len() != 4 {
        return 1;
    }
    match layouts::maclt::get_flx_indices(table_id(id), message as usize) {
        Err(e) => u32::from(e.number()),
        Ok(found) => {
            let indices = found.indices;
            positions.copy_from_slice(&indices);
            *count = u64::from(found.count);
            0
        }
    }
}

// nt of an ID: 8.
#[unsafe(no_mangle)]
pub extern "C" fn osnma_maclt_nt(id: u64, value: &mut u64) -> u32
    ensures { MacltNt id value.old result value.new }
{
    tell::number(layouts::maclt::nt(table_id(id)), value)
}
