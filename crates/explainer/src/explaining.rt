// The explain program on values: lines in, answers and a table out.
ghost use Rattle.std.specs.Prelude.{◌≡◌, ℕ, ◌≤◌, ◌↔◌, List, [], ◌∷◌, ◌++◌, is_ok, IsTrue, OnOk, string_bytes};
ghost use Rattle.sessions.specs.Histories.{Taken, Ended, with_last};
ghost use Rattle.explainer.specs.Explaining.{Progress, Handled, LastHandled};
ghost use Rattle.explainer.specs.Written.{closing};

use crate::answers::{write_answer, write_table};
use lines::feeding::LineHandler;
use sessions::session::Session;
use std::alloc::Global;
use std::fmt;
use std::marker::Model;

const MOST_LINES: u32 = 1_000_000;

// A session, how many lines it has taken, and what is still to be printed.
#[derive(Debug, Drop)]
pub struct Explainer {
    session: Session,
    lines: u32,
    output: String,
}

impl Model for Explainer {
    ghost use Rattle.explainer.specs.Explaining.{Progress};

    ghost Value = { Progress };

    ghost view = { λ e. record { study = e.session; lines = e.lines; output = e.output } };
}

impl Explainer {
    pub fn new(heap: Global) -> Explainer
        ensures takes { Taken result.study result.lines [] }
        ensures clear { string_bytes result.output ≡ [] }
    {
        Explainer {
            session: Session::new(),
            lines: 0,
            output: String::new(heap),
        }
    }

    // Whether no further line is taken.
    pub fn is_done(&self) -> bool
        ensures { IsTrue result ↔ (1000000 ≤ self.now.lines) }
    {
        self.lines >= MOST_LINES
    }

    // What is still to be printed.
    pub fn output(&self) -> &str
        ensures { result.now ≡ string_bytes self.now.output }
    {
        self.output.as_str()
    }

    // Writes the table of the counts, if a line has opened the session.
    pub fn finish(&mut self) -> fmt::Result
        ensures keeps { (self.new.study ≡ self.old.study) × (self.new.lines ≡ self.old.lines) }
        ensures prints { OnOk result (string_bytes self.new.output ≡ string_bytes self.old.output ++ closing self.old.study) }
        ensures counts { (ls : List (List ℕ)) → Taken self.old.study self.old.lines ls → Ended ls self.old.study }
    {
        // a copy, once in a session
        let Some(study) = self.session.study() else {
            return Ok(());
        };
        let places = study.setting().places();
        write_table(&mut self.output, &study.counts()[..places])
    }

    // Takes what follows the last line feed, if anything does, and writes the table.
    pub fn end(&mut self, last: &[u8]) -> fmt::Result
        ensures prints { OnOk result ((s : Progress) × LastHandled last.now self.old s × (self.new.study ≡ s.study)
            × (string_bytes self.new.output ≡ string_bytes s.output ++ closing s.study)) }
        ensures counts { OnOk result ((ls : List (List ℕ)) → Taken self.old.study self.old.lines ls → Ended (with_last ls last.now) self.new.study) }
    {
        if !last.is_empty() {
            self.handle(last)?;
        }
        self.finish()
    }

    // Forgets what was printed.
    pub fn clear_output(&mut self)
        ensures clears { string_bytes self.new.output ≡ [] }
        ensures keeps { (self.new.study ≡ self.old.study) × (self.new.lines ≡ self.old.lines) }
    {
        self.output.clear();
    }
}

impl LineHandler for Explainer {
    ghost after = { λ s ls. Taken s.study s.lines ls };

    fn handle(&mut self, line: &[u8]) -> fmt::Result
        ensures after { OnOk result ((ls : List (List ℕ)) → Taken self.old.study self.old.lines ls
            → Taken self.new.study self.new.lines (ls ++ line.now ∷ [])) }
        ensures answers { Handled line.now self.old self.new (is_ok result) }
    {
        if self.is_done() {
            return Ok(());
        }
        self.lines += 1;
        let opened = self.session.is_open();
        let answer = self.session.answer(line);
        write_answer(&mut self.output, self.lines, opened, answer)
    }
}
