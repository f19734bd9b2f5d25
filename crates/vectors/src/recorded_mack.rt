// Functions 50 to 59: MACK.
use crate::found;
use crate::found::Found;
use layouts::mack::Mack;
use layouts::part::Part;
use layouts::tag_info::{Adkd, Prnd};

pub(crate) fn prnd(mack: Mack<'_>, n: usize) -> Found {
    found::named(mack.prnd_number(n), mack.prnd(n), |name, v| match name {
        Prnd::GalileoSvid(s) => v == u64::from(s) && matches!(s, 1..=36),
        Prnd::GalileoConstellation => v == 255,
        Prnd::Reserved => matches!(v, 0 | 37..=254),
    })
}

pub(crate) fn adkd(mack: Mack<'_>, n: usize) -> Found {
    found::named(mack.adkd_number(n), mack.adkd(n), |name, v| match name {
        Adkd::InavCed => v == 0,
        Adkd::InavTiming => v == 4,
        Adkd::SlowMac => v == 12,
        Adkd::Reserved => !matches!(v, 0 | 4 | 12),
    })
}

// `n` is a tag's number. By the number in the file: `recorded::answer` says why a match.
pub(crate) fn answer(function: u8, mack: Mack<'_>, n: usize) -> Option<Found> {
    Some(match function {
        50 => Found::from(mack.sizes.num_tags()),
        51 => Found::from(mack.tag0()),
        52 => Found::from(mack.macseq()),
        53 => Found::from(mack.cop()),
        54 => Found::from(mack.tag(n)),
        55 => Found::from(mack.tag_info(n)),
        56 => prnd(mack, n),
        57 => adkd(mack, n),
        58 => Found::from(mack.tag_cop(n)),
        _ => return None,
    })
}

const FILL: [u8; 32] = [170; 32];

// The key, copied over `out`, which holds the start of FILL and still does where it is refused.
fn key_into(mack: Mack<'_>, out: &mut [u8], expected: &[u8]) -> Found {
    match mack.key(out) {
        Ok(()) => found::values(0, 0, 0, &*out == expected),
        Err(refusal) => {
            let filled = Part {
                first: 0,
                many: out.len(),
            };
            let is_kept = found::lies_at(&FILL, filled, out);
            found::refused(refusal, is_kept && expected.is_empty())
        }
    }
}

// The key, into as many bytes as its size asks for, where that is at most 32.
pub(crate) fn key(mack: Mack<'_>, expected: &[u8]) -> Found {
    let mut out = FILL;
    let many = mack.sizes.key_bytes.min(32);
    key_into(mack, &mut out[..many], expected)
}
