// The key of a vector under a setting.
ghost use Rattle.std.specs.Prelude.{◌≡◌, ◌↔◌, length, IsTrue};
ghost use Rattle.fault.specs.Checks.{Answers};
ghost use Rattle.fault.specs.Numbers.{window_number};
ghost use Rattle.grid.specs.Keys.{Beyond, on_edge, edge_at, key_at, key_place, key_measure, key_of, vector_checks};
ghost use Rattle.grid.specs.Parts.{PartsOf};

use crate::extremes::{Extreme, first_extreme};
use crate::parts::{Edge, KeyParts};
use crate::settings::Setting;
use fault::WindowFault;

const GRID_TOP: i32 = 65_535;

// How far the keys of two places lie apart.
pub const STRETCH: u32 = 65_536;

// The key of a measure at a place.
pub fn key_at(place: u16, measure: u16) -> u32
    ensures { result ≡ key_at place measure }
{
    STRETCH * u32::from(place) + u32::from(measure)
}

// The place and the measure that make a key. Both are below 65,536, so the casts keep them.
pub fn split_key(key: u32) -> (usize, u16)
    ensures { result ≡ (key_place key, key_measure key) }
{
    ((key / STRETCH) as usize, (key % STRETCH) as u16)
}

impl Edge {
    // Whether a measure lies nearer to the edge than another.
    pub fn is_beyond(self, x: u16, y: u16) -> bool
        ensures { IsTrue result ↔ Beyond self x y }
    {
        match self {
            Edge::Low => x < y,
            Edge::High => x > y,
        }
    }

    // What goes with the edge, of two.
    pub fn pick<T: Copy>(self, low: T, high: T) -> T
        ensures { result ≡ on_edge self low high }
    {
        match self {
            Edge::Low => low,
            Edge::High => high,
        }
    }
}

impl KeyParts {
    pub fn key(self) -> u32
        ensures { result ≡ key_at self.place self.measure }
    {
        // a place is below 16, so the cast keeps it
        key_at(self.place as u16, self.measure)
    }
}

impl Setting {
    // The edge of a vector with these extremes.
    fn edge(self, least: u16, greatest: u16) -> Edge
        ensures { result ≡ edge_at self.theta least greatest }
    {
        if i32::from(least) + self.theta < GRID_TOP - i32::from(greatest) {
            Edge::Low
        } else {
            Edge::High
        }
    }

    // The parts of the key of a vector that has as many places as the setting, and so has extremes.
    fn parts_of(self, vector: &[u16]) -> KeyParts
        requires { length vector.now ≡ self.places }
        ensures { PartsOf self.theta vector.now result }
    {
        let low = first_extreme(vector, Edge::Low).unwrap();
        let high = first_extreme(vector, Edge::High).unwrap();
        let edge = self.edge(low.measure, high.measure);
        let Extreme { measure, place } = edge.pick(low, high);
        KeyParts {
            edge,
            place,
            measure,
        }
    }

    // The edge of a vector, with the place and the measure that make its key.
    pub fn key_parts(self, vector: &[u16]) -> Result<KeyParts, WindowFault>
        ensures { Answers window_number (vector_checks self.places vector.now) (λ p. PartsOf self.theta vector.now p) result }
    {
        if !self.has_width(vector.len()) {
            return Err(WindowFault::Width);
        }
        Ok(self.parts_of(vector))
    }

    // The key of a vector.
    pub fn key(self, vector: &[u16]) -> Result<u32, WindowFault>
        ensures { Answers window_number (vector_checks self.places vector.now) (λ k. k ≡ key_of self.theta vector.now) result }
    {
        Ok(self.key_parts(vector)?.key())
    }
}
