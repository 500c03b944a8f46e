// A session: the lines of the explain program, one after another.
ghost use Rattle.std.specs.Prelude.{◌≡◌, is_some, None};
ghost use Rattle.sessions.specs.Sessions.{OpenLine, ExplainLine, Answered};

use crate::commands::{read_opening_line, read_vector_line};
use crate::study::Study;
use fault::LineFault;
use grid::parts::KeyParts;
use grid::settings::{MOST_PLACES, Setting};
use std::marker::Model;

// What a line that is not refused is answered with.
#[derive(Clone, Copy, Debug, PartialEq, Eq)]
pub enum Answer {
    Opened,
    Explained(KeyParts),
}

// A study of the setting that a line gives.
fn open_line(line: &[u8]) -> Result<Study, LineFault>
    ensures { OpenLine line.now result }
{
    let (places, theta) = read_opening_line(line)?;
    Ok(Study::new(Setting::new(places, theta)?))
}

// Explains the vector of a line.
fn explain_line(study: &mut Study, line: &[u8]) -> Result<KeyParts, LineFault>
    ensures { ExplainLine line.now study.old study.new result }
{
    let places = study.setting().places();
    // room for the most places, since nothing is allocated here
    let mut cells = [0u16; MOST_PLACES];
    let measures = &mut cells[..places];
    read_vector_line(line, measures)?;
    Ok(study.explain(measures)?)
}

// The study, once a line has opened it. Clauses see it as an optional study.
#[derive(Clone, Copy, Debug, PartialEq, Eq)]
pub struct Session {
    study: Option<Study>,
}

impl Model for Session {
    ghost use Rattle.std.specs.Prelude.{Option};
    ghost use Rattle.sessions.specs.declared.study.Study.{Study};

    ghost Value = { Option Study };

    ghost view = { λ s. s.study };

    ghost inverse = { λ study. record { study = study } };
}

impl Session {
    pub fn new() -> Session
        ensures { result ≡ None }
    {
        Session { study: None }
    }

    // Whether a line has opened it.
    pub fn is_open(&self) -> bool
        ensures { result ≡ is_some self.now }
    {
        self.study.is_some()
    }

    // The study, if a line has opened one.
    pub fn study(&self) -> Option<Study>
        ensures { result ≡ self.now }
    {
        self.study
    }

    // Takes one line: the first that opens, then vectors.
    pub fn answer(&mut self, line: &[u8]) -> Result<Answer, LineFault>
        ensures { Answered line.now self.old self.new result }
    {
        match &mut self.study {
            Some(study) => {
                let parts = explain_line(study, line)?;
                Ok(Answer::Explained(parts))
            }
            None => {
                self.study = Some(open_line(line)?);
                Ok(Answer::Opened)
            }
        }
    }
}
