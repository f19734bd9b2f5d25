// The DSM collector's record changed in place.
ghost use Rattle.dsms.specs.DsmView.{FeedInPlace};

use crate::dsm::{CollectDsm, CompleteDsm, feed};
use layouts::refusal::Refusal;

// `dsm::feed` on the record behind the reference, which holds the next record at exit, or the same one where the call is refused.
pub fn feed_in_place(
    collector: &mut CollectDsm,
    dsm: &mut [u8],
    header: u8,
    block: &[u8],
) -> Result<Option<CompleteDsm>, Refusal>
    ensures { FeedInPlace collector.old dsm.old header block.now result collector.new dsm.new }
{
    let fed = feed(*collector, dsm, header, block);
    *collector = fed.collector;
    fed.answer
}
