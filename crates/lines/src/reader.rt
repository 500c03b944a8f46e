// A line as its bytes come in.
ghost use Rattle.std.specs.Prelude.{◌≡◌, ◌<◌, ◌≤◌, ◌↔◌, [], ◌∷◌, ◌++◌, length, take, IsTrue};

use std::marker::Model;

const KEPT: usize = 256;

// The first 256 bytes of a line that has not ended: enough to tell that it is above 255 bytes. They stand in an array
// with their count, since an `ArrayVec` blanks its bytes at each clearing.
#[derive(Debug, Drop)]
pub struct LineReader {
    bytes: [u8; KEPT],
    len: usize,
}

impl Model for LineReader {
    ghost use Rattle.std.specs.Prelude.{ℕ, ◌≡◌, ◌≤◌, List, length, take};

    ghost Value = { List ℕ };

    ghost view = { λ r. take r.len r.bytes };

    ghost invariant = { λ r. (length r.bytes ≡ 256) × (r.len ≤ 256) };
}

impl LineReader {
    pub fn new() -> LineReader
        ensures { result ≡ [] }
    {
        LineReader {
            bytes: [0; KEPT],
            len: 0,
        }
    }

    // Whether one more byte of the line is kept.
    fn has_room(&self) -> bool
        ensures room { IsTrue result ↔ (length self.now < 256) }
        ensures fits { length self.now ≤ 256 }
    {
        self.len < KEPT
    }

    // Takes in one more byte of the line.
    pub fn push(&mut self, b: u8)
        ensures { self.new ≡ take 256 (self.old ++ b ∷ []) }
    {
        let len = self.len;
        if self.has_room() {
            self.bytes[len] = b;
            self.len = len + 1;
        }
    }

    // The line so far.
    pub fn line(&self) -> &[u8]
        ensures value { result.now ≡ self.now }
        ensures fits { length result.now ≤ 256 }
    {
        &self.bytes[..self.len]
    }

    // Starts a new line.
    pub fn clear(&mut self)
        ensures { self.new ≡ [] }
    {
        self.len = 0;
    }
}
