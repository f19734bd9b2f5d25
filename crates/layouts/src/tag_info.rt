// The names of the numbers in a tag's info, which the look-up table has too.

// PRND: whose data the tag authenticates.
#[derive(Clone, Copy, Debug, PartialEq, Eq)]
pub enum Prnd {
    GalileoSvid(u8),
    GalileoConstellation,
    Reserved,
}

// ADKD: which data the tag authenticates. Reserved stands for any other number; the field has no 16.
#[derive(Clone, Copy, Debug, PartialEq, Eq)]
pub enum Adkd {
    InavCed = 0,
    InavTiming = 4,
    SlowMac = 12,
    Reserved = 16,
}
