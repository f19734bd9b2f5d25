// The NMA header and the DSM header. A number above 255 is no header: 7.
ghost use Rattle.std.specs.Prelude.{◌≡◌, [], ◌∷◌};
ghost use Rattle.layouts.specs.Answer.{gives};
ghost use Rattle.layouts.specs.Meaning.{meaning_number, meaning_status, meaning_chain_status, meaning_type};
ghost use Rattle.firmware.specs.Arguments.{of_header};
ghost use Rattle.firmware.specs.Header as promise;

use crate::tell;
use layouts::dsm_header::DsmType;
use layouts::nma_header::{ChainAndPubkeyStatus, NmaStatus};
use layouts::refusal::Refusal;
use layouts::{dsm_header, nma_header};

fn byte(header: u64) -> Result<u8, Refusal>
    ensures { meaning_number result ≡ of_header header (header ∷ []) }
{
    u8::try_from(header).map_err(|_| Refusal::Argument)
}

fn status_number(status: NmaStatus) -> u64
    ensures { gives (result ∷ []) ≡ meaning_status status }
{
    status as u64
}

fn chain_status_number(status: ChainAndPubkeyStatus) -> u64
    ensures { gives (result ∷ []) ≡ meaning_chain_status status }
{
    status as u64
}

fn type_number(kind: DsmType) -> u64
    ensures { gives (result ∷ []) ≡ meaning_type kind }
{
    kind as u64
}

// NMAS: 7.
#[unsafe(no_mangle)]
pub extern "C" fn osnma_nma_status(header: u64, value: &mut u64) -> u32
    ensures { promise.NmaStatus header value.old result value.new }
{
    tell::number(
        byte(header).map(|h| status_number(nma_header::nma_status(h))),
        value,
    )
}

// CID: 7.
#[unsafe(no_mangle)]
pub extern "C" fn osnma_chain_id(header: u64, value: &mut u64) -> u32
    ensures { promise.ChainId header value.old result value.new }
{
    tell::number(
        byte(header).map(|h| u64::from(nma_header::chain_id(h))),
        value,
    )
}

// CPKS: 7.
#[unsafe(no_mangle)]
pub extern "C" fn osnma_chain_and_pubkey_status(header: u64, value: &mut u64) -> u32
    ensures { promise.ChainAndPubkeyStatus header value.old result value.new }
{
    tell::number(
        byte(header).map(|h| chain_status_number(nma_header::chain_and_pubkey_status(h))),
        value,
    )
}

// DSM ID: 7.
#[unsafe(no_mangle)]
pub extern "C" fn osnma_dsm_id(header: u64, value: &mut u64) -> u32
    ensures { promise.DsmId header value.old result value.new }
{
    tell::number(
        byte(header).map(|h| u64::from(dsm_header::dsm_id(h))),
        value,
    )
}

// DSM block ID: 7.
#[unsafe(no_mangle)]
pub extern "C" fn osnma_dsm_block_id(header: u64, value: &mut u64) -> u32
    ensures { promise.DsmBlockId header value.old result value.new }
{
    tell::number(
        byte(header).map(|h| u64::from(dsm_header::dsm_block_id(h))),
        value,
    )
}

// DSM type, 0 KROOT, 1 PKR: 7.
#[unsafe(no_mangle)]
pub extern "C" fn osnma_dsm_type(header: u64, value: &mut u64) -> u32
    ensures { promise.DsmType header value.old result value.new }
{
    tell::number(
        byte(header).map(|h| type_number(dsm_header::dsm_type(h))),
        value,
    )
}
