// Counts of vectors on each edge of each place.
ghost use Rattle.std.specs.Prelude.{◌≡◌, ℕ, ◌<◌, ◌&&◌, List, length, ◌==◌};
ghost use Rattle.grid.specs.declared.parts.Edge.{Edge};
ghost use Rattle.sessions.specs.Tallies.{same_edge, count_on, count_at, raised};

use grid::parts::{Edge, KeyParts};
use grid::settings::MOST_PLACES;
use std::marker::Model;

// How many vectors stand on the two edges of a place.
#[derive(Clone, Copy, Debug, PartialEq, Eq)]
pub struct Counts {
    pub low: u64,
    pub high: u64,
}

impl Counts {
    // Counts one more on an edge.
    fn raise(&mut self, edge: Edge)
        ensures { (e : Edge) → count_on self.new e ≡ raised (same_edge edge e) (count_on self.old e) }
    {
        match edge {
            Edge::Low => self.low = self.low.saturating_add(1),
            Edge::High => self.high = self.high.saturating_add(1),
        }
    }
}

// The counts of 16 places, in an array, since nothing is allocated here. Clauses see them as a list.
#[derive(Clone, Copy, Debug, PartialEq, Eq)]
pub struct Tally {
    counts: [Counts; MOST_PLACES],
}

impl Model for Tally {
    ghost use Rattle.std.specs.Prelude.{◌≡◌, List, length};
    ghost use Rattle.sessions.specs.declared.tally.Counts.{Counts};

    ghost Value = { List Counts };

    ghost view = { λ t. t.counts };

    ghost invariant = { λ t. length t.counts ≡ 16 };

    ghost inverse = { λ cs. record { counts = cs } };
}

impl Tally {
    // The tally of no vectors.
    pub fn new() -> Tally
        ensures blank { (j : ℕ) (e : Edge) → j < 16 → count_at result j e ≡ 0 }
        ensures places { length result ≡ 16 }
    {
        Tally {
            counts: [Counts { low: 0, high: 0 }; MOST_PLACES],
        }
    }

    // Counts one more vector, by the parts of its key.
    pub fn note(&mut self, parts: KeyParts)
        ensures counts { (j : ℕ) (e : Edge) → j < 16 → count_at self.new j e ≡ raised (parts.place == j && same_edge parts.edge e) (count_at self.old j e) }
        ensures places { length self.new ≡ 16 }
    {
        self.counts[parts.place()].raise(parts.edge());
    }

    // The counts, place by place.
    pub fn counts(&self) -> &[Counts]
        ensures value { result.now ≡ self.now }
        ensures places { length self.now ≡ 16 }
    {
        &self.counts
    }
}
