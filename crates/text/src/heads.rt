// The head of a line: a letter as its first field.
ghost use Rattle.text.specs.Heads.{ReadHead};

use crate::fields::Fields;
use fault::TextFault;

const MOST_BYTES: usize = 255;

// The letter that a line begins with, and the fields after it.
pub fn read_head(line: &[u8]) -> Result<(char, Fields<'_>), TextFault>
    ensures { ReadHead line.now result }
{
    if line.len() > MOST_BYTES {
        return Err(TextFault::Line);
    }
    let mut fields = Fields::from(line);
    match fields.next() {
        Some([letter]) => Ok((char::from(*letter), fields)),
        _ => Err(TextFault::Letter),
    }
}
