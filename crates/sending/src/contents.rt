// What the messages here are made of: plain, but no two fields alike.
use transmitter::kroot::KrootValues;
use transmitter::pkr::PkrValues;

// Lent bytes before anything is written into them.
pub(crate) const BEFORE: [u8; 208] = [170; 208];

// Bytes that rise by one: as many as the longest part has.
pub(crate) fn rising(first: u8) -> [u8; 132] {
    std::array::from_fn(|i| first.wrapping_add(i as u8))
}

// The first so many of the bytes, or all where there are fewer.
pub(crate) fn first(bytes: &[u8], many: usize) -> &[u8] {
    &bytes[..many.min(bytes.len())]
}

// The bytes behind the first so many.
pub(crate) fn behind(bytes: &[u8], many: usize) -> &[u8] {
    &bytes[many.min(bytes.len())..]
}

// What TS 9 stands for.
pub(crate) const TAG_BITS: u64 = 40;

// MAC function 3 is reserved and table 219 is unknown: they are carried as they stand.
pub(crate) fn kroot(nb_dk: u64, ks: u64) -> KrootValues {
    KrootValues {
        nb_dk,
        pkid: 10,
        cidkr: 1,
        hf: 2,
        mf: 3,
        ks,
        ts: 9,
        maclt: 219,
        wn_k: 1248,
        towh_k: 167,
        alpha: 0x1A2B3C4D5E6F,
    }
}

pub(crate) fn pkr(nb_dp: u64, npkt: u64) -> PkrValues {
    PkrValues {
        nb_dp,
        mid: 5,
        npkt,
        npkid: 14,
    }
}
