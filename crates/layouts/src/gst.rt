// Satellite, week and time of week: what every call that is handed them refuses. The Rust has them as types, in svn.rs and gst.rs.
ghost use Rattle.layouts.specs.Gst.{SvnRefuses, GstRefuses};

use crate::refusal::Refusal;

// 2 for a satellite.
pub fn check_svn(satellite: u64) -> Result<(), Refusal>
    ensures { SvnRefuses satellite result }
{
    match satellite {
        1..=36 => Ok(()),
        _ => Err(Refusal::Satellite),
    }
}

// 2, 3, 4, in this order, for a satellite, a week and a time of week: numbers of any width, as `texts` reads them, so that a `Stamp` would be too narrow.
pub fn check(satellite: u64, week: u64, time: u64) -> Result<(), Refusal>
    ensures { GstRefuses satellite week time result }
{
    check_svn(satellite)?;
    if 4095 < week {
        return Err(Refusal::Week);
    }
    if 604799 < time {
        return Err(Refusal::TimeOfWeek);
    }
    Ok(())
}

// Whose page or message it is, and when it was sent.
#[derive(Clone, Copy, Debug, PartialEq, Eq)]
pub struct Stamp {
    pub satellite: u8,
    pub week: u16,
    pub time: u32,
}

impl Stamp {
    // 2, 3, 4, in this order.
    pub fn check(self) -> Result<(), Refusal>
        ensures { GstRefuses self.satellite self.week self.time result }
    {
        check(
            u64::from(self.satellite),
            u64::from(self.week),
            u64::from(self.time),
        )
    }
}
