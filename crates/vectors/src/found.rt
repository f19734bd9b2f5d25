// What `layouts` answers, in the form of a record.
ghost use Rattle.std.specs.Prelude.{◌≡◌, true, take, drop};
ghost use Rattle.vectors.specs.inner.Answered.{refusal_in, values_in};

use layouts::part::Part;
use layouts::refusal::Refusal;

#[derive(Clone, Copy, PartialEq)]
pub(crate) struct Found {
    // The values, or why it is refused.
    pub answer: Result<[u64; 3], Refusal>,
    // Whether the rest fits too: the bytes of a part, the name of a number, the output.
    pub fits: bool,
}

pub(crate) fn values(v0: u64, v1: u64, v2: u64, fits: bool) -> Found {
    Found {
        answer: Ok([v0, v1, v2]),
        fits,
    }
}

pub(crate) fn value(v: u64) -> Found {
    values(v, 0, 0, true)
}

pub(crate) fn refused(refusal: Refusal, fits: bool) -> Found {
    Found {
        answer: Err(refusal),
        fits,
    }
}

impl Found {
    // As a record has it: the refusal's number, 0 for none, and the values, zeros where it is refused.
    pub(crate) fn recorded(self) -> (u8, [u64; 3])
        ensures { (result.0 ≡ refusal_in self.answer) × (result.1 ≡ values_in self.answer) }
    {
        match self.answer {
            Ok(values) => (0, values),
            Err(refusal) => (refusal.number(), [0; 3]),
        }
    }
}

// A number alone.
impl From<Result<u64, Refusal>> for Found {
    fn from(number: Result<u64, Refusal>) -> Found {
        match number {
            Ok(v) => value(v),
            Err(refusal) => refused(refusal, true),
        }
    }
}

// A number and its name: `names` says whether the name is that of the number, and both are refused alike.
pub(crate) fn named<N: Copy, F: Fn(N, u64) -> bool>(
    number: Result<u64, Refusal>,
    name: Result<N, Refusal>,
    names: F,
) -> Found
    requires { F.IsAlwaysCallable names }
{
    let fits = match (number, name) {
        (Ok(v), Ok(name)) => names(name, v),
        (Err(a), Err(b)) => a == b,
        _ => false,
    };
    Found {
        fits,
        ..Found::from(number)
    }
}

// Whether `bytes` are those of the message's part.
pub(crate) fn lies_at(msg: &[u8], part: Part, bytes: &[u8]) -> bool
    ensures { result ≡ true → bytes.now ≡ take part.many (drop part.first msg.now) }
{
    let Part { first, many } = part;
    if msg.len() < first || msg.len() - first < many {
        return false;
    }
    bytes == &msg[first..first + many]
}

// A part, beside the bytes that were handed out for it: none where it is refused.
pub(crate) fn part(msg: &[u8], answer: Result<Part, Refusal>, bytes: &[u8]) -> Found {
    match answer {
        Ok(part) => values(
            part.first as u64,
            part.many as u64,
            0,
            lies_at(msg, part, bytes),
        ),
        Err(refusal) => refused(refusal, bytes.is_empty()),
    }
}
