// The number of places and the knob of an opening line.
ghost use Rattle.text.specs.Openings.{ReadPlaces, ReadTheta, TwoFields, ReadPair, ReadOpening};

use crate::fields::Fields;
use crate::numbers::{MOST, read_knob, read_number};
use fault::TextFault;

const PLACES_FIELD: usize = 2;

const KNOB_FIELD: usize = 3;

fn read_places(field: &[u8]) -> Result<usize, TextFault>
    ensures { ReadPlaces field.now result }
{
    let places = read_number(field, MOST).map_err(|fault| fault.in_field(
        PLACES_FIELD,
        TextFault::Dimension(PLACES_FIELD),
    ))?;
    // `usize` has no `From<u32>`, and a number of 16 bits fits
    Ok(places as usize)
}

fn read_theta(field: &[u8]) -> Result<i32, TextFault>
    ensures { ReadTheta field.now result }
{
    read_knob(field).map_err(|fault| fault.in_field(KNOB_FIELD, TextFault::Knob(KNOB_FIELD)))
}

// The fields, if there are two.
fn two_fields(mut fields: Fields<'_>) -> Option<(&[u8], &[u8])>
    ensures { TwoFields fields.entry result }
{
    let first = fields.next()?;
    let second = fields.next()?;
    fields.next().is_none().then_some((first, second))
}

fn read_pair(places: &[u8], theta: &[u8]) -> Result<(usize, i32), TextFault>
    ensures { ReadPair places.now theta.now result }
{
    Ok((read_places(places)?, read_theta(theta)?))
}

// The number of places and the knob in the fields after the letter.
pub fn read_opening(fields: Fields<'_>) -> Result<(usize, i32), TextFault>
    ensures { ReadOpening fields.entry result }
{
    let (places, theta) = two_fields(fields).ok_or(TextFault::Fields)?;
    read_pair(places, theta)
}
