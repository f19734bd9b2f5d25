// Why a call is refused. Each refusal has its number.
ghost use Rattle.layouts.specs.Refusals.{RefusalNumber};

use std::error::Error;
use std::fmt;

#[derive(Clone, Copy, Debug, PartialEq, Eq)]
pub enum Refusal {
    SliceLength = 1,
    Satellite = 2,
    Week = 3,
    TimeOfWeek = 4,
    MessageEnds = 5,
    Reserved = 6,
    Argument = 7,
    UnknownTable = 8,
    TagNumber = 9,
    PlaceFull = 10,
    Lengths = 11,
    RecordRange = 12,
}

impl Refusal {
    // 1 to 12.
    pub fn number(self) -> u8
        ensures { RefusalNumber self result }
    {
        self as u8
    }
}

impl fmt::Display for Refusal {
    fn fmt<W: fmt::Write>(&self, f: &mut fmt::Formatter<W>) -> fmt::Result {
        let words = match self {
            Refusal::SliceLength => "a lent slice hasn't the stated length",
            Refusal::Satellite => "satellite number not 1..36",
            Refusal::Week => "week above 4,095",
            Refusal::TimeOfWeek => "time of week above 604,799",
            Refusal::MessageEnds => "a field needs a byte past the message's end",
            Refusal::Reserved => "a reserved number stands where a size or count is needed",
            Refusal::Argument => "another argument outside its stated range",
            Refusal::UnknownTable => "table ID unknown",
            Refusal::TagNumber => "tag number at or above the entry's nt",
            Refusal::PlaceFull =>
                "a message is stored at the current place's time and that place has 36",
            Refusal::Lengths => "lengths inside a message contradict each other",
            Refusal::RecordRange => "a record handed in has a number outside its range",
        };
        f.write_str(words)
    }
}

impl Error for Refusal {}
