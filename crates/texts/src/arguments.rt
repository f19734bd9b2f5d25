// The arguments of a page replay: decimal numbers.
ghost use Rattle.texts.specs.Arguments.{ReadDecimal, ReadArguments};

use layouts::gst;
use layouts::gst::Stamp;
use layouts::refusal::Refusal;

// The number that a text says, or the largest of 64 bits where it is larger. Refuses 7 for a text that is not digits only, or empty.
pub fn decimal(text: &[u8]) -> Result<u64, Refusal>
    ensures { ReadDecimal text.now result }
{
    if text.is_empty() {
        return Err(Refusal::Argument);
    }
    let mut n: u64 = 0;
    // left at the first byte that is no digit: a fold would carry the refusal along
    for c in text {
        if !c.is_ascii_digit() {
            return Err(Refusal::Argument);
        }
        n = n.saturating_mul(10).saturating_add(u64::from(*c - b'0'));
    }
    Ok(n)
}

// Reads the arguments, of which there are `many`. Refuses 7 for other than three or one that is not decimal, then 2, 3, 4.
pub fn read(many: usize, satellite: &[u8], week: &[u8], time: &[u8]) -> Result<Stamp, Refusal>
    ensures { ReadArguments many satellite.now week.now time.now result }
{
    if many != 3 {
        return Err(Refusal::Argument);
    }
    let satellite = decimal(satellite)?;
    let week = decimal(week)?;
    let time = decimal(time)?;
    gst::check(satellite, week, time)?;
    // Each fits, since the check passed: a conversion that may fail would have a refusal that cannot come.
    Ok(Stamp {
        satellite: satellite as u8,
        week: week as u16,
        time: time as u32,
    })
}
