// The time of the next page.
ghost use Rattle.std.specs.Prelude.{◌≡◌, ◌≤◌};
ghost use Rattle.page_replay.specs.Replay.{Time, later as later_of};

use layouts::gst::Stamp;

// The same satellite's, two seconds later.
pub(crate) fn later(at: Stamp) -> Stamp
    requires { (at.week ≤ 4095) × (at.time ≤ 604799) }
    ensures satellite { result.satellite ≡ at.satellite }
    ensures time { ◌≡◌ {A = Time} (record { week = result.week; time = result.time }) (later_of (record { week = at.week; time = at.time })) }
{
    let mut next = at;
    if at.time < 604798 {
        next.time = at.time + 2;
        return next;
    }
    next.time = at.time - 604798;
    next.week = if at.week == 4095 { 0 } else { at.week + 1 };
    next
}
