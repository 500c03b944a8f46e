// Intervals of measures, one to a place of a window.
ghost use Rattle.std.specs.Prelude.{◌≡◌, ◌<◌, ◌≤◌, ◌↔◌, length, IsTrue};
ghost use Rattle.std.specs.Bool.{OnTrue};
ghost use Rattle.windows.specs.Intervals.{Inside, Uncrossed, EndsOnGrid};
ghost use Rattle.windows.specs.Ends.{far_end};

use crate::spans::Span;
pub use grid::extremes::Extreme;
use grid::extremes::Measured;
use grid::parts::Edge;

// The ends of a window at one place, both included.
pub type Interval = Span<u16>;

impl Interval {
    // Whether the low end is above the high end.
    pub fn is_crossed(self) -> bool
        ensures decides { IsTrue result ↔ (self.high < self.low) }
        ensures grid { self.high ≤ 65535 }
    {
        self.low > self.high
    }
}

// An interval counts by the end that lies away from the edge.
impl Measured for Interval {
    ghost measure_at = { far_end };

    fn measure(&self, edge: Edge) -> u16 {
        edge.pick(self.high, self.low)
    }
}

// Whether no interval has its low end above its high end.
pub(crate) fn is_uncrossed(intervals: &[Interval]) -> bool
    ensures uncrossed { IsTrue result ↔ Uncrossed intervals.now }
    ensures grid { OnTrue result (EndsOnGrid intervals.now) }
{
    intervals.iter().all(|interval| !interval.is_crossed())
}

// Whether the measures of a slot lie inside intervals, one to each.
pub(crate) fn is_inside(slot: &[u16], intervals: &[Interval]) -> bool
    requires { length slot.now ≡ length intervals.now }
    ensures { IsTrue result ↔ Inside intervals.now slot.now }
{
    // Kept a loop over the slot's elements with their index: that is how this project tests what lies inside.
    for (i, measure) in slot.iter().enumerate() {
        if !intervals[i].has(*measure) {
            return false;
        }
    }
    true
}
