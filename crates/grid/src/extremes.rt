// The extreme measure of a list toward an edge, and the first place that has it.
ghost use Rattle.std.specs.Prelude.{◌≡◌, ◌<◌, ◌↔◌, ℕ, [], length, map, IsTrue, IsNone, IfSome};
ghost use Rattle.grid.specs.Extremes.{IsNearest, IsExtreme};
ghost use Rattle.grid.specs.declared.parts.Edge.{Edge};

use crate::parts::Edge;

// An extreme measure, and the first place that has it.
#[derive(Clone, Copy, Debug, PartialEq, Eq)]
pub struct Extreme {
    pub measure: u16,
    pub place: usize,
}

// What has one measure, as seen from an edge.
pub trait Measured {
    ghost measure_at: { Edge → Self → ℕ };

    fn measure(&self, edge: Edge) -> u16
        ensures { result ≡ measure_at edge self.now };
}

impl Measured for u16 {
    ghost measure_at = { λ edge number. number };

    fn measure(&self, _edge: Edge) -> u16 {
        *self
    }
}

// Whether a measure lies nearer to the edge than the best so far, if there is one.
fn is_nearest(measure: u16, best: Option<Extreme>, edge: Edge) -> bool
    ensures { IsTrue result ↔ IsNearest edge measure best }
{
    best.is_none_or(|best| edge.is_beyond(measure, best.measure))
}

// The extreme measure toward the edge, which an empty list hasn't.
pub fn first_extreme<M: Measured>(items: &[M], edge: Edge) -> Option<Extreme>
    ensures empty { IsNone result ↔ (items.now ≡ []) }
    ensures extreme { IfSome result (IsExtreme edge (map (M.measure_at edge) items.now)) }
    ensures within { IfSome result (λ x. x.place < length items.now) }
{
    // not by `max_by_key`, which answers the last of equals
    let mut best = None;
    for (place, item) in items.iter().enumerate() {
        let measure = item.measure(edge);
        if is_nearest(measure, best, edge) {
            best = Some(Extreme { measure, place });
        }
    }
    best
}
