// The fields of a line, parted by tabs.
ghost use Rattle.std.specs.Prelude.{◌≡◌, ◌↔◌, ◌==◌, length, count_by, min, IsTrue};
ghost use Rattle.std.specs.Iterator.{YieldsFirstRef, item_count};
ghost use Rattle.text.specs.Fields.{fields, left, FirstField, FieldsJoin};
ghost use Rattle.text.specs.Reading.{ReadFields};

use crate::numbers::{MOST, NumberFault, read_number};
use std::marker::Model;

// Why fields are not the numbers that are read.
#[derive(Clone, Copy, Debug, PartialEq, Eq)]
pub enum FieldsFault {
    // there are more or fewer than places
    Count,
    // the field of this index, from 0, is not one
    At(NumberFault, usize),
}

fn is_tab(b: u8) -> bool
    ensures { result ≡ (b == 9) }
{
    b == b'\t'
}

// The field in front, and what follows its tab if it has one.
pub fn first_field(line: &[u8]) -> (&[u8], Option<&[u8]>)
    ensures { FirstField line.now result.0.now result.1 }
{
    match line.iter().position(|b| is_tab(*b)) {
        Some(end) => (&line[..end], Some(&line[end + 1..])),
        None => (line, None),
    }
}

// How many tabs a line has, counted up to a most: nothing is read behind so many.
fn tab_count(line: &[u8], most: usize) -> usize
    ensures { result ≡ min most (count_by (λ b. b == 9) line.now) }
{
    line.iter().filter(|b| is_tab(**b)).take(most).count()
}

// Whether a line has this many fields.
#[tactic(auto, using(crate::proofs::FieldLemmas::length_fields))]
pub fn has_fields(line: &[u8], count: usize) -> bool
    ensures { IsTrue result ↔ (length (fields line.now) ≡ count) }
{
    tab_count(line, count) + 1 == count
}

// The fields of a line that are left to be read.
#[derive(Clone, Debug, Drop)]
pub struct Fields<'a> {
    // what is left of the line, if anything is
    rest: Option<&'a [u8]>,
}

impl<'a> Model for Fields<'a> {
    ghost use Rattle.std.specs.Prelude.{ℕ, List};
    ghost use Rattle.text.specs.Fields.{left};

    ghost Value = { List (List ℕ) };

    ghost view = { λ s. left s.rest };
}

// Every field of a line.
impl<'a> From<&'a [u8]> for Fields<'a> {
    ghost from_gives = { λ line result. result ≡ fields line.now };

    fn from(line: &'a [u8]) -> Self {
        Fields { rest: Some(line) }
    }
}

// The fields of what is left of a line, if anything is, for whoever cut the line by `first_field`.
impl<'a> From<Option<&'a [u8]>> for Fields<'a> {
    ghost from_gives = { λ rest result. result ≡ left rest };

    fn from(rest: Option<&'a [u8]>) -> Self {
        Fields { rest }
    }
}

impl<'a> Fields<'a> {
    // What is left of the line, if anything is, for whoever reads the fields more than once.
    pub fn rest(&self) -> Option<&'a [u8]>
        ensures { left result ≡ self.now }
    {
        self.rest // copied
    }

    // Whether this many fields are left.
    pub fn has_count(&self, count: usize) -> bool
        ensures { IsTrue result ↔ (length self.now ≡ count) }
    {
        // a match and not `map_or`, whose answer for nothing would stand before the question
        match self.rest {
            Some(line) => has_fields(line, count),
            None => count == 0,
        }
    }
}

impl<'a> Iterator for Fields<'a> {
    type Item = &'a [u8];

    ghost next_gives = { YieldsFirstRef (λ s. s) };

    ghost remaining = { item_count (λ s. s) };

    #[tactic(auto, using(crate::proofs::FieldLemmas::fields_first))]
    fn next(&mut self) -> Option<&'a [u8]> {
        let (field, rest) = first_field(self.rest?);
        self.rest = rest;
        Some(field)
    }
}

// The numbers up to 65,535 that the fields spell, one to a place.
pub fn read_numbers(fields: Fields<'_>, out: &mut [u16]) -> Result<(), FieldsFault>
    ensures { ReadFields fields.entry out.old out.new result }
{
    if !fields.has_count(out.len()) {
        return Err(FieldsFault::Count);
    }
    for (i, field) in fields.enumerate() {
        let number = read_number(field, MOST).map_err(|kind| FieldsFault::At(kind, i))?;
        // by its index, since nothing is known of what is written through a zipped iterator; at most `MOST`, so the
        // cast keeps it
        out[i] = number as u16;
    }
    Ok(())
}

// The fields of every line, joined by tabs, are the line.
pub fn fields_join()
    ensures { FieldsJoin }
{}
