// A setting, and the vectors that were explained under it.
ghost use Rattle.std.specs.Prelude.{◌≡◌, [], length, OnOk, OnErr};
ghost use Rattle.fault.specs.Checks.{Answers};
ghost use Rattle.fault.specs.Numbers.{window_number};
ghost use Rattle.grid.specs.Keys.{vector_checks};
ghost use Rattle.grid.specs.Parts.{PartsOf};
ghost use Rattle.sessions.specs.Tallies.{Tallied};

use crate::tally::{Counts, Tally};
use fault::WindowFault;
use grid::parts::KeyParts;
use grid::settings::Setting;

// Clauses name both fields, since a caller gets each of them whole.
#[derive(Clone, Copy, Debug, PartialEq, Eq)]
pub struct Study {
    setting: Setting,
    tally: Tally,
    ghost places: { length tally ≡ 16 },
}

impl Study {
    ghost use Rattle.sessions.specs.Sessions.{Gains};

    // The study of no vectors yet.
    pub fn new(setting: Setting) -> Study
        ensures keeps { result.setting ≡ setting }
        ensures tallies { Tallied setting.theta [] result.tally }
    {
        Study {
            setting,
            tally: Tally::new(),
        }
    }

    pub fn setting(&self) -> Setting
        ensures { result ≡ self.now.setting }
    {
        self.setting
    }

    // The parts of a vector's key. The vector is counted, unless it is refused.
    pub fn explain(&mut self, vector: &[u16]) -> Result<KeyParts, WindowFault>
        ensures answers { Answers window_number (vector_checks self.old.setting.places vector.now) (λ p. PartsOf self.old.setting.theta vector.now p) result }
        ensures keeps { self.new.setting ≡ self.old.setting }
        ensures stays { OnErr result (self.new ≡ self.old) }
        ensures gains { OnOk result (Gains vector.now self.old self.new) }
    {
        let parts = self.setting.key_parts(vector)?;
        self.tally.note(parts);
        Ok(parts)
    }

    // How many of the explained vectors stand on the edges of each place.
    pub fn counts(&self) -> &[Counts]
        ensures value { result.now ≡ self.now.tally }
        ensures places { length self.now.tally ≡ 16 }
    {
        self.tally.counts()
    }
}
