// A part of a message.
ghost use Rattle.std.specs.Prelude.{◌≡◌, [], ◌+◌, ◌≤◌, length};
ghost use Rattle.layouts.specs.Answer.{part as part_of, shown as shown_of};
ghost use Rattle.layouts.specs.Meaning.{meaning_part};
ghost use Rattle.layouts.specs.inner.Code.{Inside};

use crate::refusal::Refusal;

// Where it lies: the number of its first byte, and how many it has.
#[derive(Clone, Copy, Debug, PartialEq, Eq)]
pub struct Part {
    pub first: usize,
    pub many: usize,
}

// A part that has passed its own checks: 5 where the message ends before the part's end.
pub(crate) fn within(msg: &[u8], first: usize, many: usize) -> Result<Part, Refusal>
    ensures { meaning_part result ≡ part_of msg.now [] first many }
{
    let len = msg.len();
    if len < first {
        return Err(Refusal::MessageEnds);
    }
    if len - first < many {
        return Err(Refusal::MessageEnds);
    }
    Ok(Part { first, many })
}

// The bytes of a part; none where it is refused.
pub(crate) fn shown(msg: &[u8], part: Result<Part, Refusal>) -> &[u8]
    requires { Inside part (length msg.now) }
    ensures { result.now ≡ shown_of msg.now (meaning_part part) }
{
    match part {
        Err(_) => &msg[..0],
        Ok(Part { first, many }) => {
            let end = first + many;
            &msg[first..end]
        }
    }
}
