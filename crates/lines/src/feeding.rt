// Lines out of bytes that come in parts, handed on one by one.
ghost use Rattle.std.specs.Prelude.{◌≡◌, ℕ, List, [], ◌∷◌, ◌++◌, ◌↔◌, IsTrue, OnOk};
ghost use Rattle.lines.specs.Lines.{Split, fed, split, HasTaken, LinesJoin};

use crate::reader::LineReader;
use std::fmt;

// What lines are handed to. It fails only for want of memory.
pub trait LineHandler {
    // it stands as these lines leave it
    ghost after: { Self → List (List ℕ) → Type 0 };

    fn handle(&mut self, line: &[u8]) -> fmt::Result
        ensures { OnOk result ((ls : List (List ℕ)) → after self.old ls → after self.new (ls ++ line.now ∷ [])) };
}

fn is_line_feed(b: u8) -> bool
    ensures { IsTrue result ↔ (b ≡ 10) }
{
    b == b'\n'
}

// Takes in a byte, and hands on the line that it ends.
fn feed_byte<H: LineHandler>(reader: &mut LineReader, to: &mut H, b: u8) -> fmt::Result
    ensures { OnOk result ((p : Split) → HasTaken H.LineHandler.after p reader.old to.old
        → HasTaken H.LineHandler.after (fed p b) reader.new to.new) }
{
    if is_line_feed(b) {
        to.handle(reader.line())?;
        reader.clear();
    } else {
        reader.push(b);
    }
    Ok(())
}

// Takes in bytes, and hands on each line that they end, cut after 256 bytes.
pub fn feed<H: LineHandler>(reader: &mut LineReader, to: &mut H, bytes: &[u8]) -> fmt::Result
    ensures { OnOk result ((h : List ℕ) → HasTaken H.LineHandler.after (split h) reader.old to.old
        → HasTaken H.LineHandler.after (split (h ++ bytes.now)) reader.new to.new) }
{
    // a loop, since `try_for_each` says nothing of what its closure changes behind these borrows
    for b in bytes {
        feed_byte(reader, to, *b)?;
    }
    Ok(())
}

// The lines of every input with their line feeds, and what follows the last one, are the input.
pub fn lines_join()
    ensures { LinesJoin }
{}
