// The lines that the explain program reads.
ghost use Rattle.std.specs.Prelude.{◌≡◌, ◌≤◌, length};
ghost use Rattle.sessions.specs.Commands.{OpeningLine, line_fault, Near, ReadMeasures, VectorLine};

use fault::TextFault;
use text::fields::{Fields, FieldsFault, read_numbers};
use text::heads::read_head;
use text::openings::read_opening;

const FIRST_FIELD: usize = 2;

// Each line is read by a match on its letter, which further letters join.

// The number of places and the knob of an opening line.
pub fn read_opening_line(line: &[u8]) -> Result<(usize, i32), TextFault>
    ensures { OpeningLine line.now result }
{
    let (letter, fields) = read_head(line)?;
    match letter {
        'D' => read_opening(fields),
        _ => Err(TextFault::Letter),
    }
}

// A faulty field after the letter, as a fault of the line. Not a `From`, since it asks that the field can be counted on.
fn fault_of(fault: FieldsFault) -> TextFault
    requires { Near fault }
    ensures { result ≡ line_fault fault }
{
    match fault {
        FieldsFault::Count => TextFault::Fields,
        FieldsFault::At(kind, i) => kind.in_field(
            i + FIRST_FIELD,
            TextFault::Size(i + FIRST_FIELD),
        ),
    }
}

// Writes the measures in the fields after the letter, one to a place.
fn read_measures(fields: Fields<'_>, measures: &mut [u16]) -> Result<(), TextFault>
    requires { length fields ≤ 256 }
    ensures { ReadMeasures fields.entry measures.old measures.new result }
{
    read_numbers(fields, measures).map_err(fault_of)
}

// Writes the measures of a vector line, one to a place.
pub fn read_vector_line(line: &[u8], measures: &mut [u16]) -> Result<(), TextFault>
    ensures { VectorLine line.now measures.old measures.new result }
{
    let (letter, fields) = read_head(line)?;
    match letter {
        'V' => read_measures(fields, measures),
        _ => Err(TextFault::Letter),
    }
}
