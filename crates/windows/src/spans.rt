// Spans of numbers: the intervals of a window and the key ranges of a plan.
ghost use Rattle.std.specs.Prelude.{◌↔◌, IsTrue};
ghost use Rattle.std.specs.Ordering.{partial_le};

// The values from one end to another, both included.
#[derive(Clone, Copy, Debug, PartialEq, Eq)]
pub struct Span<T> {
    pub low: T,
    pub high: T,
}

impl<T: Copy + PartialOrd> Span<T> {
    // Whether a value lies between the ends.
    pub fn has(self, value: T) -> bool
        ensures { IsTrue result ↔ (IsTrue (partial_le T.partial_cmp self.low value) × IsTrue (partial_le T.partial_cmp value self.high)) }
    {
        (self.low..=self.high).contains(&value)
    }
}
