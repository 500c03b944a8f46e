// Windows: an interval for each place, none of them crossed.
ghost use Rattle.std.specs.Prelude.{◌≡◌, ◌↔◌, length, IsTrue};
ghost use Rattle.fault.specs.Checks.{Answers};
ghost use Rattle.fault.specs.Numbers.{window_number};
ghost use Rattle.windows.specs.Intervals.{Inside, PlaceOf, window_checks};

use crate::intervals::{Interval, is_inside, is_uncrossed};
use fault::WindowFault;
use grid::extremes::{Extreme, first_extreme};
use grid::parts::Edge;
use grid::settings::{MOST_PLACES, Setting};
use std::marker::Model;

// A window: the first `len` of its intervals, and the tightest of their low and of their high ends. The intervals stand
// in an array, since a window is copied and an `ArrayVec` is not.
#[derive(Clone, Copy, Debug, PartialEq, Eq)]
pub struct Window {
    intervals: [Interval; MOST_PLACES],
    len: usize,
    pub(crate) greatest_low: Extreme,
    pub(crate) least_high: Extreme,
}

impl Model for Window {
    ghost use Rattle.std.specs.Prelude.{List};
    ghost use Rattle.std.proofs.Common.{sym};
    ghost use Rattle.windows.specs.Intervals.{Interval};

    ghost Value = { List Interval };

    ghost use Rattle.windows.specs.Window.{intervals_of, fields_of, IsHeld};

    ghost view = { intervals_of };

    ghost invariant = { λ a. IsHeld (intervals_of a) a };

    ghost inverse = { fields_of };

    ghost inverse_ok = { λ a h i. record {
      intervals = sym h.cells i;
      len = sym h.len i;
      greatest_low = record { measure = sym h.lows.0 i; place = sym h.lows.1 i };
      least_high = record { measure = sym h.highs.0 i; place = sym h.highs.1 i };
    } };
}

impl Window {
    ghost use Rattle.windows.specs.Window.{IsWindow};

    // The window of some intervals, if there is one to each place and none is crossed.
    pub fn new(setting: Setting, intervals: &[Interval]) -> Result<Window, WindowFault>
        ensures { Answers window_number (window_checks setting.places intervals.now) (λ w. w ≡ intervals.now) result }
    {
        if !setting.has_width(intervals.len()) {
            return Err(WindowFault::Width);
        }
        if !is_uncrossed(intervals) {
            return Err(WindowFault::Crossed);
        }
        // A setting has a place, so there are extremes.
        let greatest_low = first_extreme(intervals, Edge::High).unwrap();
        let least_high = first_extreme(intervals, Edge::Low).unwrap();
        let mut held = [Interval { low: 0, high: 0 }; MOST_PLACES];
        held[..intervals.len()].copy_from_slice(intervals);
        Ok(Window {
            intervals: held,
            len: intervals.len(),
            greatest_low,
            least_high,
        })
    }

    // The intervals, one to a place.
    pub fn intervals(&self) -> &[Interval]
        ensures all { result.now ≡ self.now }
        ensures window { IsWindow self.now }
    {
        &self.intervals[..self.len]
    }

    // How many places the window has.
    pub fn places(&self) -> usize
        ensures count { result ≡ length self.now }
        ensures window { IsWindow self.now }
    {
        self.intervals().len()
    }

    // The interval of a place, if the window has that place.
    pub fn interval(&self, place: usize) -> Option<Interval>
        ensures place { PlaceOf self.now place result }
        ensures window { IsWindow self.now }
    {
        self.intervals().get(place).copied()
    }

    // Whether a vector lies inside: it has as many places as the window, and each measure lies between its ends.
    pub fn contains(&self, vector: &[u16]) -> bool
        ensures inside { IsTrue result ↔ Inside self.now vector.now }
        ensures window { IsWindow self.now }
    {
        let intervals = self.intervals();
        vector.len() == intervals.len() && is_inside(vector, intervals)
    }
}
