// MACK messages. Bytes, key size and tag size one by one, as C hands them over (include/osnma.h).
ghost use Rattle.std.specs.Prelude.{◌≡◌};
ghost use Rattle.firmware.specs.Mack.{MackTag0, MackMacseq, MackCop, MackTag, MackTagInfo, MackPrnd, MackAdkd, MackTagCop, MackNumTags, MackKey};

use crate::tell;
use layouts::mack::{Mack, Sizes};

fn sizes(key_size_bytes: u64, tag_size_bits: u64) -> Sizes
    ensures { (result.key_bytes ≡ key_size_bytes) × (result.tag_bits ≡ tag_size_bits) }
{
    Sizes {
        key_bytes: key_size_bytes as usize,
        tag_bits: tag_size_bits as usize,
    }
}

fn mack<'a>(msg: &'a [u8], key_size_bytes: u64, tag_size_bits: u64) -> Mack<'a>
    ensures { (result.msg.now ≡ msg.now) × (result.sizes.key_bytes ≡ key_size_bytes) × (result.sizes.tag_bits ≡ tag_size_bits) }
{
    let sizes = sizes(key_size_bytes, tag_size_bits);
    Mack { msg, sizes }
}

// nt: 7.
#[unsafe(no_mangle)]
pub extern "C" fn osnma_mack_num_tags(
    key_size_bytes: u64,
    tag_size_bits: u64,
    value: &mut u64,
) -> u32
    ensures { MackNumTags key_size_bytes tag_size_bits value.old result value.new }
{
    tell::number(sizes(key_size_bytes, tag_size_bits).num_tags(), value)
}

// Tag 0: 1, 7.
#[unsafe(no_mangle)]
pub extern "C" fn osnma_mack_tag0(
    msg: &[u8],
    key_size_bytes: u64,
    tag_size_bits: u64,
    value: &mut u64,
) -> u32
    ensures { MackTag0 msg.now key_size_bytes tag_size_bits value.old result value.new }
{
    tell::number(mack(msg, key_size_bytes, tag_size_bits).tag0(), value)
}

// MACSEQ: 1, 7.
#[unsafe(no_mangle)]
pub extern "C" fn osnma_mack_macseq(
    msg: &[u8],
    key_size_bytes: u64,
    tag_size_bits: u64,
    value: &mut u64,
) -> u32
    ensures { MackMacseq msg.now key_size_bytes tag_size_bits value.old result value.new }
{
    tell::number(mack(msg, key_size_bytes, tag_size_bits).macseq(), value)
}

// COP of tag 0: 1, 7.
#[unsafe(no_mangle)]
pub extern "C" fn osnma_mack_cop(
    msg: &[u8],
    key_size_bytes: u64,
    tag_size_bits: u64,
    value: &mut u64,
) -> u32
    ensures { MackCop msg.now key_size_bytes tag_size_bits value.old result value.new }
{
    tell::number(mack(msg, key_size_bytes, tag_size_bits).cop(), value)
}

// Tag n: 1, 7, 7.
#[unsafe(no_mangle)]
pub extern "C" fn osnma_mack_tag(
    msg: &[u8],
    key_size_bytes: u64,
    tag_size_bits: u64,
    tag: u64,
    value: &mut u64,
) -> u32
    ensures { MackTag msg.now key_size_bytes tag_size_bits tag value.old result value.new }
{
    tell::number(
        mack(msg, key_size_bytes, tag_size_bits).tag(tag as usize),
        value,
    )
}

// The info of tag n, 16 bits: 1, 7, 7.
#[unsafe(no_mangle)]
pub extern "C" fn osnma_mack_tag_info(
    msg: &[u8],
    key_size_bytes: u64,
    tag_size_bits: u64,
    tag: u64,
    value: &mut u64,
) -> u32
    ensures { MackTagInfo msg.now key_size_bytes tag_size_bits tag value.old result value.new }
{
    tell::number(
        mack(msg, key_size_bytes, tag_size_bits).tag_info(tag as usize),
        value,
    )
}

// PRND of tag n, as it stands: 1, 7, 7.
#[unsafe(no_mangle)]
pub extern "C" fn osnma_mack_prnd(
    msg: &[u8],
    key_size_bytes: u64,
    tag_size_bits: u64,
    tag: u64,
    value: &mut u64,
) -> u32
    ensures { MackPrnd msg.now key_size_bytes tag_size_bits tag value.old result value.new }
{
    tell::number(
        mack(msg, key_size_bytes, tag_size_bits).prnd_number(tag as usize),
        value,
    )
}

// ADKD of tag n, as it stands: 1, 7, 7.
#[unsafe(no_mangle)]
pub extern "C" fn osnma_mack_adkd(
    msg: &[u8],
    key_size_bytes: u64,
    tag_size_bits: u64,
    tag: u64,
    value: &mut u64,
) -> u32
    ensures { MackAdkd msg.now key_size_bytes tag_size_bits tag value.old result value.new }
{
    tell::number(
        mack(msg, key_size_bytes, tag_size_bits).adkd_number(tag as usize),
        value,
    )
}

// COP of tag n: 1, 7, 7.
#[unsafe(no_mangle)]
pub extern "C" fn osnma_mack_tag_cop(
    msg: &[u8],
    key_size_bytes: u64,
    tag_size_bits: u64,
    tag: u64,
    value: &mut u64,
) -> u32
    ensures { MackTagCop msg.now key_size_bytes tag_size_bits tag value.old result value.new }
{
    tell::number(
        mack(msg, key_size_bytes, tag_size_bits).tag_cop(tag as usize),
        value,
    )
}

// The key, into key_size_bytes bytes: 1, 7, and 1 for an output of another length.
#[unsafe(no_mangle)]
pub extern "C" fn osnma_mack_key(
    msg: &[u8],
    key_size_bytes: u64,
    tag_size_bits: u64,
    out: &mut [u8],
) -> u32
    ensures { MackKey msg.now key_size_bytes tag_size_bits out.old result out.new }
{
    tell::done(mack(msg, key_size_bytes, tag_size_bits).key(out))
}
