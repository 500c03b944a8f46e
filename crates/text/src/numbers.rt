// Numbers as a field spells them.
ghost use Rattle.std.specs.Prelude.{◌≡◌, ◌↔◌, ◌≤◌, pos, negsuc, IsTrue, All};
ghost use Rattle.std.specs.Char.{IsAsciiDigit};
ghost use Rattle.text.specs.Spelling.{Plain, ReadNumber, ReadSigned, AfterMinus, minus};
ghost use Rattle.text.specs.Openings.{field_fault};

use fault::TextFault;

// The greatest number that a field may hold.
pub(crate) const MOST: u32 = 65_535;

const MOST_BELOW_ZERO: u32 = 65_536;

// Why a field is not the number that is read.
#[derive(Clone, Copy, Debug, PartialEq, Eq)]
pub enum NumberFault {
    // it spells no number
    Digits,
    // it spells one outside the limits
    Size,
}

impl NumberFault {
    // The fault of this field of a line, which has a fault of its own for a number outside the limits.
    pub fn in_field(self, field: usize, outside: TextFault) -> TextFault
        ensures { result ≡ field_fault field outside self }
    {
        match self {
            NumberFault::Digits => TextFault::Digits(field),
            NumberFault::Size => outside,
        }
    }
}

// Whether each byte is a digit.
fn all_digits(field: &[u8]) -> bool
    ensures { IsTrue result ↔ All IsAsciiDigit field.now }
{
    // a loop, since with `all` the reading of a vector line took a quarter longer
    for b in field {
        if *b < b'0' || b'9' < *b {
            return false;
        }
    }
    true
}

// Whether the field is made of digits, with no leading zero.
fn is_plain(field: &[u8]) -> bool
    ensures { IsTrue result ↔ Plain field.now }
{
    match field {
        [] | [b'0', _, ..] => false,
        _ => all_digits(field),
    }
}

// A number from 0 to `most`.
pub fn read_number(field: &[u8], most: u32) -> Result<u32, NumberFault>
    ensures { ReadNumber most field.now result }
{
    if !is_plain(field) {
        return Err(NumberFault::Digits);
    }
    // a loop, since the library's `parse` took twice the time
    let limit = u64::from(most);
    let mut number = 0u64;
    for b in field {
        number = number * 10 + u64::from(*b - b'0');
        if number > limit {
            return Err(NumberFault::Size);
        }
    }
    // at most `most`, so the cast keeps it
    Ok(number as u32)
}

// The number that a minus makes of the one after it.
fn below_zero(number: u32) -> Result<i32, NumberFault>
    requires { number ≤ 65536 }
    ensures { result ≡ minus number }
{
    match number {
        0 => Err(NumberFault::Digits),
        // at most `MOST_BELOW_ZERO`, so the cast keeps it
        _ => Ok(-(number as i32)),
    }
}

// What follows the minus that the field begins with, if it does.
fn after_minus(field: &[u8]) -> Option<&[u8]>
    ensures { AfterMinus field.now result }
{
    match field {
        [b'-', digits @ ..] => Some(digits),
        _ => None,
    }
}

// A knob: a number from -65,536 to 65,535, with a minus before a negative one.
#[tactic(auto, using(crate::proofs::Signs::read_minus, crate::proofs::Signs::read_minus_fault, crate::proofs::Signs::read_plain_fault))]
pub fn read_knob(field: &[u8]) -> Result<i32, NumberFault>
    ensures { ReadSigned (negsuc 65535) (pos 65535) field.now result }
{
    match after_minus(field) {
        Some(digits) => below_zero(read_number(digits, MOST_BELOW_ZERO)?),
        // at most `MOST`, so the cast keeps it
        None => Ok(read_number(field, MOST)? as i32),
    }
}
