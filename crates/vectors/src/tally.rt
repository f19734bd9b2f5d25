// Counts of what was compared. A count goes no further than its type does.

#[derive(Clone, Copy)]
pub(crate) struct Tally {
    pub good: u64,
    pub refused: u64,
    pub differ: u64,
    // Of the records, those whose arguments fit no function of `layouts`, only the C boundary.
    pub boundary: u64,
}

pub(crate) fn none() -> Tally {
    Tally {
        good: 0,
        refused: 0,
        differ: 0,
        boundary: 0,
    }
}

impl Tally {
    // One record more, refused or not.
    pub(crate) fn record(self, is_refused: bool) -> Tally {
        if is_refused {
            return Tally {
                refused: self.refused.saturating_add(1),
                ..self
            };
        }
        Tally {
            good: self.good.saturating_add(1),
            ..self
        }
    }

    pub(crate) fn difference(self) -> Tally {
        Tally {
            differ: self.differ.saturating_add(1),
            ..self
        }
    }

    pub(crate) fn boundary_only(self) -> Tally {
        Tally {
            boundary: self.boundary.saturating_add(1),
            ..self
        }
    }

    pub(crate) fn total(self) -> u64 {
        self.good.saturating_add(self.refused)
    }
}
