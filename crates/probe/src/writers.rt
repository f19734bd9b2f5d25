// The writers of KROOT and PKR messages. Records as C has them, with a `From` of their own each way, and zeros where there is none: a C record has no Option.
ghost use Rattle.std.specs.Prelude.{◌≡◌};
ghost use Rattle.transmitter.specs.WritePromises.{meaning_kroot, meaning_pkr};
ghost use Rattle.probe.specs.Writers.{kroot_of, kroot_record_of, kroot_told, pkr_of, pkr_record_of, pkr_told};
ghost use Rattle.probe.specs.Writers.{WriteKroot, WritePkr, CutBlock, ReadKrootValues, ReadPkrValues};

use crate::tell;
use crate::tell::Told;
use layouts::refusal::Refusal;
use transmitter::kroot::KrootValues;
use transmitter::pkr::PkrValues;

#[repr(C)]
#[derive(Clone, Copy)]
pub struct KrootRecord {
    pub nb_dk: u64,
    pub pkid: u64,
    pub cidkr: u64,
    pub hf: u64,
    pub mf: u64,
    pub ks: u64,
    pub ts: u64,
    pub maclt: u64,
    pub wn_k: u64,
    pub towh_k: u64,
    pub alpha: u64,
}

#[repr(C)]
#[derive(Clone, Copy)]
pub struct PkrRecord {
    pub nb_dp: u64,
    pub mid: u64,
    pub npkt: u64,
    pub npkid: u64,
}

#[repr(C)]
#[derive(Clone, Copy)]
pub struct BlockCalled {
    pub bytes: [u8; 13],
    pub answer: Told,
}

#[repr(C)]
#[derive(Clone, Copy)]
pub struct KrootCalled {
    pub values: KrootRecord,
    pub answer: Told,
}

#[repr(C)]
#[derive(Clone, Copy)]
pub struct PkrCalled {
    pub values: PkrRecord,
    pub answer: Told,
}

impl From<KrootRecord> for KrootValues {
    ghost from_gives = { λ from r. r ≡ kroot_of from };

    fn from(from: KrootRecord) -> KrootValues {
        KrootValues {
            nb_dk: from.nb_dk,
            pkid: from.pkid,
            cidkr: from.cidkr,
            hf: from.hf,
            mf: from.mf,
            ks: from.ks,
            ts: from.ts,
            maclt: from.maclt,
            wn_k: from.wn_k,
            towh_k: from.towh_k,
            alpha: from.alpha,
        }
    }
}

impl From<KrootValues> for KrootRecord {
    ghost from_gives = { λ from r. r ≡ kroot_record_of from };

    fn from(from: KrootValues) -> KrootRecord {
        KrootRecord {
            nb_dk: from.nb_dk,
            pkid: from.pkid,
            cidkr: from.cidkr,
            hf: from.hf,
            mf: from.mf,
            ks: from.ks,
            ts: from.ts,
            maclt: from.maclt,
            wn_k: from.wn_k,
            towh_k: from.towh_k,
            alpha: from.alpha,
        }
    }
}

impl From<PkrRecord> for PkrValues {
    ghost from_gives = { λ from r. r ≡ pkr_of from };

    fn from(from: PkrRecord) -> PkrValues {
        PkrValues {
            nb_dp: from.nb_dp,
            mid: from.mid,
            npkt: from.npkt,
            npkid: from.npkid,
        }
    }
}

impl From<PkrValues> for PkrRecord {
    ghost from_gives = { λ from r. r ≡ pkr_record_of from };

    fn from(from: PkrValues) -> PkrRecord {
        PkrRecord {
            nb_dp: from.nb_dp,
            mid: from.mid,
            npkt: from.npkt,
            npkid: from.npkid,
        }
    }
}

// The raw numbers of a KROOT message as a record; zeros where they are refused.
#[tactic(auto, unfolding(crate::specs::Telling::told, crate::specs::Writers::kroot_told))]
fn kroot_told(read: Result<KrootValues, Refusal>) -> KrootCalled
    ensures { result ≡ kroot_told (meaning_kroot read) }
{
    match read {
        Err(e) => KrootCalled {
            values: KrootRecord {
                nb_dk: 0,
                pkid: 0,
                cidkr: 0,
                hf: 0,
                mf: 0,
                ks: 0,
                ts: 0,
                maclt: 0,
                wn_k: 0,
                towh_k: 0,
                alpha: 0,
            },
            answer: tell::refused(e),
        },
        Ok(v) => KrootCalled {
            values: KrootRecord::from(v),
            answer: tell::given(0, 0, 0),
        },
    }
}

// The raw numbers of a PKR message as a record; zeros where they are refused.
#[tactic(auto, unfolding(crate::specs::Telling::told, crate::specs::Writers::pkr_told))]
fn pkr_told(read: Result<PkrValues, Refusal>) -> PkrCalled
    ensures { result ≡ pkr_told (meaning_pkr read) }
{
    match read {
        Err(e) => PkrCalled {
            values: PkrRecord {
                nb_dp: 0,
                mid: 0,
                npkt: 0,
                npkid: 0,
            },
            answer: tell::refused(e),
        },
        Ok(v) => PkrCalled {
            values: PkrRecord::from(v),
            answer: tell::given(0, 0, 0),
        },
    }
}

// `kroot::write_kroot`.
#[unsafe(no_mangle)]
pub extern "C" fn probe_write_kroot(
    dsm: &mut [u8],
    id: u64,
    values: KrootRecord,
    key: &[u8],
    signature: &[u8],
    padding: &[u8],
) -> Told
    ensures { WriteKroot dsm.old id values key.now signature.now padding.now result dsm.new }
{
    let given = KrootValues::from(values);
    let answer = transmitter::kroot::write_kroot(dsm, id, given, key, signature, padding);
    tell::written(answer)
}

// `pkr::write_pkr`.
#[unsafe(no_mangle)]
pub extern "C" fn probe_write_pkr(
    dsm: &mut [u8],
    id: u64,
    values: PkrRecord,
    nodes: &[u8],
    key: &[u8],
    padding: &[u8],
) -> Told
    ensures { WritePkr dsm.old id values nodes.now key.now padding.now result dsm.new }
{
    let given = PkrValues::from(values);
    let answer = transmitter::pkr::write_pkr(dsm, id, given, nodes, key, padding);
    tell::written(answer)
}

// `blocks::block`; zeros beside a refusal.
#[unsafe(no_mangle)]
#[tactic(auto, unfolding(crate::specs::Telling::told))]
pub extern "C" fn probe_block(dsm: &[u8], id: u64, n: u64) -> BlockCalled
    ensures { CutBlock dsm.now id n result }
{
    match transmitter::blocks::block(dsm, id, n) {
        Err(e) => BlockCalled {
            bytes: [0; 13],
            answer: tell::refused(e),
        },
        Ok(cut) => {
            let bytes = cut.bytes;
            BlockCalled {
                bytes,
                answer: tell::given(u64::from(cut.header), 0, 0),
            }
        }
    }
}

// `kroot::kroot_values`.
#[unsafe(no_mangle)]
pub extern "C" fn probe_kroot_values(msg: &[u8]) -> KrootCalled
    ensures { ReadKrootValues msg.now result }
{
    kroot_told(transmitter::kroot::kroot_values(msg))
}

// `pkr::pkr_values`.
#[unsafe(no_mangle)]
pub extern "C" fn probe_pkr_values(msg: &[u8]) -> PkrCalled
    ensures { ReadPkrValues msg.now result }
{
    pkr_told(transmitter::pkr::pkr_values(msg))
}
