// The DSM that is shown, as one value that keeps the caller's slice.
ghost use Rattle.dsms.specs.DsmView.{ViewKept, IdKept, TypeKept, DataKept, ViewAnswer};

use crate::dsm;
use crate::dsm::{CollectDsm, CompleteDsm};
use layouts::dsm_header;
use layouts::dsm_header::DsmType;
use layouts::refusal::Refusal;

// A named form of the project: the struct, and its three methods by value.
#[derive(Clone, Copy)]
pub struct Dsm<'a> {
    pub id: u8,
    pub dsm_type: DsmType,
    pub data: &'a [u8],
}

impl<'a> Dsm<'a> {
    pub fn id(self) -> u8
        ensures { IdKept self.entry result }
    {
        self.id
    }

    pub fn dsm_type(self) -> DsmType
        ensures { TypeKept self.entry result }
    {
        self.dsm_type
    }

    // The caller's slice itself.
    pub fn data(self) -> &'a [u8]
        ensures { DataKept self.entry result }
    {
        self.data
    }
}

// The DSM that is shown, with the caller's slice: ID 0, the first type and no byte where `dsm::view_shown` shows nothing or refuses.
pub fn view_dsm<'a>(collector: CollectDsm, dsm: &'a [u8]) -> Dsm<'a>
    ensures { ViewKept collector dsm.now result }
{
    match dsm::view_shown(collector, dsm).unwrap_or(None) {
        Some(bytes) => Dsm {
            id: collector.id,
            dsm_type: dsm_header::dsm_type(collector.id * 16),
            data: &dsm[..bytes],
        },
        None => Dsm {
            id: 0,
            dsm_type: DsmType::Kroot,
            data: &dsm[..0],
        },
    }
}

// Which DSM is shown and how many of the lent bytes are its own: 1 for other than 208 bytes, then 12.
pub fn view_answer(collector: CollectDsm, dsm: &[u8]) -> Result<Option<CompleteDsm>, Refusal>
    ensures { ViewAnswer collector dsm.now result }
{
    let shown = dsm::view_shown(collector, dsm)?;
    let kept = view_dsm(collector, dsm);
    Ok(shown.map(|bytes| CompleteDsm {
        id: kept.id,
        dsm_type: kept.dsm_type,
        bytes,
    }))
}
