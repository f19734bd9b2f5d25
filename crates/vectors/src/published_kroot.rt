// A.5.2: the values of a DSM-KROOT message, set into one of 8 blocks.
use crate::published;
use crate::tally::Tally;
use layouts::dsm_kroot;
use std::io;
use texts::hexadecimal;

const ROOT_KEY: [u8; 32] = *b"5BF8C9CBFCF70422081475FD445DF0FF";

// Key size index 4 stands in byte 2, week 1248 in bytes 4 and 5, then alpha and the root key. The other bits up to alpha
// are not published: zeros, but for NB_DK 2, tag size index 9 and table ID 27.
const MESSAGE: [u8; 58] = *b"2000491B04E000\
    610BDF26D77B\
    5BF8C9CBFCF70422081475FD445DF0FF";

// The signature of 64 bytes and the padding of 11 behind the root key are zeros.
pub(crate) fn checks<R: Print>(rt: &R, t: Tally) -> io::Result<Tally> {
    let mut msg = [0u8; 104];
    let view: &mut [u8] = &mut msg;
    let _ = hexadecimal::read(view, 0, &MESSAGE);
    let t = published::number(rt, "A.5.2 key size", dsm_kroot::key_size(view), 16, t)?;
    let t = published::number(rt, "A.5.2 week", dsm_kroot::kroot_wn(view), 1248, t)?;
    let t = published::number(rt, "A.5.2 alpha", dsm_kroot::alpha(view), 0x610BDF26D77B, t)?;
    published::bytes(rt, "A.5.2 root key", dsm_kroot::kroot(view), &ROOT_KEY, t)
}
