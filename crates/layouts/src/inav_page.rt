// An I/NAV page of 30 bytes, even part then odd part: whether it counts, and its OSNMA field. Each reader refuses 1 for other than 30 bytes.
ghost use Rattle.std.specs.Prelude.{◌≡◌, ◌+◌, ◌*◌, ◌<◌, length};
ghost use Rattle.layouts.specs.Bits.{field};
ghost use Rattle.layouts.specs.InavPage.{PageKindRead, OsnmaRead};

use crate::bits;
use crate::bits::Field;
use crate::refusal::Refusal;

// The kind of the even part, and of the odd part: whether the part is odd, and its page type.
pub const EVEN_KIND: Field = Field { first: 0, width: 2 };

pub const ODD_KIND: Field = Field {
    first: 120,
    width: 2,
};

pub const OSNMA: Field = Field {
    first: 138,
    width: 40,
};

#[derive(Clone, Copy, Debug, PartialEq, Eq)]
pub enum PageKind {
    Counts,
    Skipped,
}

// Whether the page counts: both parts in their order, and nominal.
pub fn kind(page: &[u8]) -> Result<PageKind, Refusal>
    ensures { PageKindRead page.now result }
{
    if page.len() != 30 {
        return Err(Refusal::SliceLength);
    }
    if bits::long(page, EVEN_KIND.first, EVEN_KIND.width) != 0 {
        return Ok(PageKind::Skipped);
    }
    if bits::long(page, ODD_KIND.first, ODD_KIND.width) != 2 {
        return Ok(PageKind::Skipped);
    }
    Ok(PageKind::Counts)
}

// The byte `k` of the OSNMA field.
fn osnma_byte(page: &[u8], k: usize) -> u8
    requires { (length page.now ≡ 30) × (k < 5) }
    ensures { result ≡ field page.now (138 + 8 * k) 8 }
{
    bits::byte_at(page, OSNMA.first / 8 + k, OSNMA.first % 8)
}

// The page's OSNMA field, by value.
pub fn osnma(page: &[u8]) -> Result<[u8; 5], Refusal>
    ensures { OsnmaRead page.now result }
{
    if page.len() != 30 {
        return Err(Refusal::SliceLength);
    }
    // written out, and no `from_fn`: five calls, without a closure for each page
    Ok([
        osnma_byte(page, 0),
        osnma_byte(page, 1),
        osnma_byte(page, 2),
        osnma_byte(page, 3),
        osnma_byte(page, 4),
    ])
}
