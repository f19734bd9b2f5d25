// Plain numbers, by the library's own: nothing here calls them any more, and a caller may (`Agreed.wide`, `Agreed.smaller`).
ghost use Rattle.layouts.specs.Numbers.{Wide, Smaller};

pub fn wide(x: u8) -> u64
    ensures { Wide x result }
{
    u64::from(x)
}

pub fn smaller(a: usize, b: usize) -> usize
    ensures { Smaller a b result }
{
    a.min(b)
}
