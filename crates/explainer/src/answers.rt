// Answer lines, byte for byte.
ghost use Rattle.std.specs.Prelude.{◌≡◌, ◌++◌, Some, OnOk, string_bytes};
ghost use Rattle.explainer.specs.Written.{taken_letter, refused_letter, answer_line, counts_line, table_of};

use fault::{LineFault, TextFault};
use sessions::session::Answer;
use sessions::tally::Counts;
use std::fmt;
use std::fmt::Write;

// The answer to a line, and whether the session was open before it, as the session says it.
#[derive(Clone, Copy, Debug, PartialEq, Eq)]
struct AnswerLine {
    line: u32,
    opened: bool,
    answer: Result<Answer, LineFault>,
}

impl AnswerLine {
    // The letter that the session takes.
    fn taken_letter(&self) -> &'static str
        ensures { result.now ≡ taken_letter self.now.opened }
    {
        if self.opened { "V" } else { "D" }
    }

    // The letter of a line that is refused so.
    fn refused_letter(&self, fault: LineFault) -> &'static str
        ensures { result.now ≡ refused_letter self.now.opened fault }
    {
        match fault {
            LineFault::Text(TextFault::Line | TextFault::Letter) => "-",
            _ => self.taken_letter(),
        }
    }
}

impl fmt::Display for AnswerLine {
    ghost output = { λ a. Some (answer_line a.line a.opened a.answer) };

    fn fmt<W: fmt::Write>(&self, f: &mut fmt::Formatter<W>) -> fmt::Result {
        let line = self.line;
        match self.answer {
            Ok(Answer::Opened) => writeln!(f, "{line}\tD\t0"),
            Ok(Answer::Explained(parts)) => {
                let key = parts.key();
                let place = parts.place();
                let edge = parts.edge();
                writeln!(f, "{line}\tV\t0\t{key}\t{place}\t{edge}")
            }
            Err(fault) => {
                let letter = self.refused_letter(fault);
                let number = fault.number();
                let layer = fault.layer();
                let field = fault.field();
                writeln!(f, "{line}\t{letter}\t{number}\t{layer}\t{field}")
            }
        }
    }
}

// Writes the answer to a line of a session, which was open before the line or not, as `Session::is_open` says.
pub fn write_answer(
    to: &mut String,
    line: u32,
    opened: bool,
    res: Result<Answer, LineFault>,
) -> fmt::Result
    ensures { OnOk result (string_bytes to.new ≡ string_bytes to.old ++ answer_line line opened res) }
{
    let answer = AnswerLine {
        line,
        opened,
        answer: res,
    };
    write!(to, "{answer}")?;
    Ok(())
}

// How many vectors stand on the edges of a place.
#[derive(Clone, Copy, Debug, PartialEq, Eq)]
struct CountsLine {
    place: usize,
    counts: Counts,
}

impl fmt::Display for CountsLine {
    ghost output = { λ c. Some (counts_line c.place c.counts) };

    fn fmt<W: fmt::Write>(&self, f: &mut fmt::Formatter<W>) -> fmt::Result {
        let place = self.place;
        let Counts { low, high } = self.counts;
        writeln!(f, "{place}\t{low}\t{high}")
    }
}

// Writes the counts of places, from place 0 on.
pub fn write_table(to: &mut String, counts: &[Counts]) -> fmt::Result
    ensures { OnOk result (string_bytes to.new ≡ string_bytes to.old ++ table_of counts.now) }
{
    to.write_str("place\tlow\thigh\n")?;
    for (place, counts) in counts.iter().enumerate() {
        let counts = *counts;
        write!(to, "{}", CountsLine { place, counts })?;
    }
    Ok(())
}
