// Settings: how many places a vector has, and the knob.
ghost use Rattle.std.specs.Prelude.{◌≡◌, ◌↔◌, IsTrue};
ghost use Rattle.fault.specs.Checks.{Answers};
ghost use Rattle.fault.specs.Numbers.{window_number};
ghost use Rattle.grid.specs.Limits.{InDimension, InKnob, setting_checks};

use fault::WindowFault;

// How many places a vector has at most.
pub const MOST_PLACES: usize = 16;

const LEAST_KNOB: i32 = -65_536;

const MOST_KNOB: i32 = 65_535;

// The number of places and the knob theta, both within their limits. Clauses name both, since a caller reads each.
#[derive(Clone, Copy, Debug, PartialEq, Eq)]
pub struct Setting {
    pub(crate) places: usize,
    pub(crate) theta: i32,
    ghost dimension: { InDimension places },
    ghost knob: { InKnob theta },
}

impl Setting {
    // The setting of some places and a knob, if both are within their limits.
    pub fn new(places: usize, theta: i32) -> Result<Setting, WindowFault>
        ensures { Answers window_number (setting_checks places theta) (λ s. (s.places ≡ places) × (s.theta ≡ theta)) result }
    {
        if !(1..=MOST_PLACES).contains(&places) {
            return Err(WindowFault::Dimension);
        }
        if !(LEAST_KNOB..=MOST_KNOB).contains(&theta) {
            return Err(WindowFault::Knob);
        }
        Ok(Setting { places, theta })
    }

    // How many places a vector has.
    pub fn places(self) -> usize
        ensures { result ≡ self.places }
    {
        self.places
    }

    // Whether a vector or a window of so many places is one of the setting's.
    pub fn has_width(self, count: usize) -> bool
        ensures { IsTrue result ↔ (count ≡ self.places) }
    {
        count == self.places
    }

    pub fn theta(self) -> i32
        ensures { result ≡ self.theta }
    {
        self.theta
    }
}
