// The edges of the grid, and the parts of a key.
ghost use Rattle.std.specs.Prelude.{◌≡◌, ◌<◌, Some};
ghost use Rattle.grid.specs.Words.{edge_word};

use std::fmt;

// The edge that a vector's key goes by.
#[derive(Clone, Copy, Debug, PartialEq, Eq)]
pub enum Edge {
    // the key holds the least measure
    Low,
    // the key holds the greatest measure
    High,
}

impl Edge {
    // The edge's name in an answer line, for a caller that wants the text itself; `Display` prints it.
    pub fn word(self) -> &'static str
        ensures { result.now ≡ edge_word self }
    {
        match self {
            Edge::Low => "low",
            Edge::High => "high",
        }
    }
}

impl fmt::Display for Edge {
    ghost output = { λ e. Some (edge_word e) };

    fn fmt<W: fmt::Write>(&self, f: &mut fmt::Formatter<W>) -> fmt::Result {
        f.pad(self.word())
    }
}

// A measure at one of at most 16 places, and the edge that it was taken for. Clauses name all three, since a caller
// reads each.
#[derive(Clone, Copy, Debug, PartialEq, Eq)]
pub struct KeyParts {
    pub(crate) edge: Edge,
    pub(crate) place: usize,
    pub(crate) measure: u16,
    ghost near: { place < 16 },
}

impl KeyParts {
    pub fn edge(self) -> Edge
        ensures { result ≡ self.edge }
    {
        self.edge
    }

    pub fn place(self) -> usize
        ensures { result ≡ self.place }
    {
        self.place
    }

    pub fn measure(self) -> u16
        ensures { result ≡ self.measure }
    {
        self.measure
    }
}
