// Plans: rising lists of key ranges.
ghost use Rattle.std.specs.Prelude.{◌≡◌, ℕ, ◌<◌, ◌↔◌, [], ◌∷◌, ◌++◌, length, IsTrue};
ghost use Rattle.plans.specs.Ranges.{Planned, Apart, OnePlace, Rule};

use std::marker::Model;
use windows::spans::Span;

const MOST_RANGES: usize = 32;

// A range of keys, both ends included.
pub type KeyRange = Span<u32>;

// A plan: the first `len` of its ranges. They stand in an array, since a plan is copied and an `ArrayVec` is not.
#[derive(Clone, Copy, Debug, PartialEq, Eq)]
pub struct Plan {
    ranges: [KeyRange; MOST_RANGES],
    len: usize,
}

impl Model for Plan {
    ghost use Rattle.std.specs.Prelude.{List};
    ghost use Rattle.std.proofs.Common.{sym};
    ghost use Rattle.plans.specs.Ranges.{KeyRange};

    ghost Value = { List KeyRange };

    ghost use Rattle.plans.specs.Plan.{ranges_of, fields_of, IsHeld};

    ghost view = { ranges_of };

    ghost invariant = { IsHeld };

    ghost inverse = { fields_of };

    ghost inverse_ok = { λ a h i. record { ranges = sym h.cells i; len = sym h.len i } };
}

impl Plan {
    // The plan of no keys.
    pub fn new() -> Plan
        ensures { result ≡ [] }
    {
        Plan {
            ranges: [KeyRange { low: 0, high: 0 }; MOST_RANGES],
            len: 0,
        }
    }

    // Puts a range behind those of the plan.
    #[tactic(auto, using(crate::proofs::Ranges::rule_push, crate::proofs::Cells::held_push))]
    pub(crate) fn push(&mut self, range: KeyRange)
        requires room { length self.old < 32 }
        requires place { OnePlace range }
        requires apart { (k : ℕ) → Planned self.old k → Apart k range.low }
        ensures pushed { self.new ≡ self.old ++ range ∷ [] }
        ensures rule { Rule self.new }
    {
        self.ranges[self.len] = range;
        self.len += 1;
    }

    // The ranges, in order.
    pub fn ranges(&self) -> &[KeyRange]
        ensures all { result.now ≡ self.now }
        ensures rule { Rule self.now }
    {
        &self.ranges[..self.len]
    }

    // Whether one of the ranges has the key.
    pub fn is_planned(&self, key: u32) -> bool
        ensures planned { IsTrue result ↔ Planned self.now key }
        ensures rule { Rule self.now }
    {
        // one by one, since there are at most 32
        self.ranges().iter().any(|range| range.has(key))
    }
}
