// The bit reader.
ghost use Rattle.firmware.specs.Bits.{ReadBits};

use crate::tell;

// The number that the bits make: 7 for a width other than 1 to 64, then 5.
#[unsafe(no_mangle)]
pub extern "C" fn osnma_read_bits(msg: &[u8], start: u64, width: u64, value: &mut u64) -> u32
    ensures { ReadBits msg.now start width value.old result value.new }
{
    tell::number(
        layouts::bits::read_bits(msg, start as usize, width as usize),
        value,
    )
}
