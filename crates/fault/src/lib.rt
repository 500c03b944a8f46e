// Refusals: why a call or a line was refused, by layer, with the number of each.
#![tactic(auto)]

ghost use Rattle.std.specs.Prelude.{◌≡◌, Some};
ghost use Rattle.fault.specs.declared.LineFault.TheVariants.{Text, Call};
ghost use Rattle.fault.specs.declared.SearchFault.TheVariants.{Window, Order};
ghost use Rattle.fault.specs.Numbers.{layer_word, order_number, window_number, text_number, text_field, search_number, search_layer, line_number, line_layer, line_field, NumbersTell};

use std::fmt;
use thiserror::Error;

// The part of the library that refuses.
#[derive(Clone, Copy, Debug, PartialEq, Eq)]
pub enum Layer {
    Text,
    Window,
    Order,
}

impl Layer {
    // The layer's name in an answer line, for a caller that wants the text itself; `Display` prints it.
    pub fn word(self) -> &'static str
        ensures { result.now ≡ layer_word self }
    {
        match self {
            Layer::Text => "text",
            Layer::Window => "window",
            Layer::Order => "order",
        }
    }
}

impl fmt::Display for Layer {
    ghost output = { λ l. Some (layer_word l) };

    fn fmt<W: fmt::Write>(&self, f: &mut fmt::Formatter<W>) -> fmt::Result {
        f.pad(self.word())
    }
}

// Why an ordered index refuses a change.
#[derive(Clone, Copy, Debug, PartialEq, Eq, Error)]
pub enum OrderFault {
    #[error("the index holds as many entries as it may")]
    Full,
    #[error("the entry to add is there")]
    Present,
    #[error("the entry to drop is not there")]
    Missing,
}

impl OrderFault {
    pub fn number(self) -> u8
        ensures { result ≡ order_number self }
    {
        match self {
            OrderFault::Full => 7,
            OrderFault::Present => 12,
            OrderFault::Missing => 13,
        }
    }
}

// Why the search index, or what it is made of, refuses a call.
#[derive(Clone, Copy, Debug, PartialEq, Eq, Error)]
pub enum WindowFault {
    #[error("the number of places is 0 or above 16")]
    Dimension,
    #[error("the knob is outside its limits")]
    Knob,
    #[error("the vector or the window hasn't as many places as the setting")]
    Width,
    #[error("the record number is above 65,535 or has no slot")]
    Slot,
    #[error("the record number is held")]
    Taken,
    #[error("the record number isn't held")]
    Absent,
    #[error("some low end is above its high end")]
    Crossed,
    #[error("an entry doesn't fit its slot")]
    Stray,
    #[error("there are more records than places in the list")]
    Short,
    #[error("as many neighbours as asked for can't be written")]
    Count,
}

impl WindowFault {
    pub fn number(self) -> u8
        ensures { result ≡ window_number self }
    {
        match self {
            WindowFault::Dimension => 1,
            WindowFault::Knob => 2,
            WindowFault::Width => 3,
            WindowFault::Slot => 4,
            WindowFault::Taken => 5,
            WindowFault::Absent => 6,
            WindowFault::Crossed => 8,
            WindowFault::Stray => 9,
            WindowFault::Short => 10,
            WindowFault::Count => 11,
        }
    }
}

// Why a line is no command. A case with a number holds the field, counted from 1.
#[derive(Clone, Copy, Debug, PartialEq, Eq, Error)]
pub enum TextFault {
    #[error("the line is above 255 bytes")]
    Line,
    #[error("the first field is no letter that is allowed here")]
    Letter,
    #[error("the letter takes another count of fields")]
    Fields,
    #[error("field {0} is no number of the stated form")]
    Digits(usize),
    #[error("field {0} is above 65,535")]
    Size(usize),
    #[error("field {0}, a number of places, is above 65,535")]
    Dimension(usize),
    #[error("field {0}, a knob, is outside its limits")]
    Knob(usize),
    #[error("field {0}, a count of neighbours, is above 65,535")]
    Count(usize),
}

impl TextFault {
    pub fn number(self) -> u8
        ensures { result ≡ text_number self }
    {
        match self {
            TextFault::Dimension(_) => 1,
            TextFault::Knob(_) => 2,
            TextFault::Count(_) => 11,
            TextFault::Line => 14,
            TextFault::Letter => 15,
            TextFault::Fields => 16,
            TextFault::Digits(_) => 17,
            TextFault::Size(_) => 18,
        }
    }

    // The faulty field from 1, or 0 where the line as a whole is at fault.
    pub fn field(self) -> usize
        ensures { result ≡ text_field self }
    {
        match self {
            TextFault::Line | TextFault::Fields => 0,
            TextFault::Letter => 1,
            TextFault::Digits(field)
            | TextFault::Size(field)
            | TextFault::Dimension(field)
            | TextFault::Knob(field)
            | TextFault::Count(field) => field,
        }
    }
}

// Why a call of the search index is refused: by itself, or by the ordered index below.
#[derive(Clone, Copy, Debug, PartialEq, Eq, Error)]
pub enum SearchFault {
    #[error(transparent)]
    Window(WindowFault),
    #[error(transparent)]
    Order(OrderFault),
}

impl SearchFault {
    pub fn number(self) -> u8
        ensures { result ≡ search_number self }
    {
        match self {
            SearchFault::Window(fault) => fault.number(),
            SearchFault::Order(fault) => fault.number(),
        }
    }

    pub fn layer(self) -> Layer
        ensures { result ≡ search_layer self }
    {
        match self {
            SearchFault::Window(_) => Layer::Window,
            SearchFault::Order(_) => Layer::Order,
        }
    }
}

// Why a line is refused: as text, or by the call that it makes.
#[derive(Clone, Copy, Debug, PartialEq, Eq, Error)]
pub enum LineFault {
    #[error(transparent)]
    Text(TextFault),
    #[error(transparent)]
    Call(SearchFault),
}

impl LineFault {
    pub fn number(self) -> u8
        ensures { result ≡ line_number self }
    {
        match self {
            LineFault::Text(fault) => fault.number(),
            LineFault::Call(fault) => fault.number(),
        }
    }

    pub fn layer(self) -> Layer
        ensures { result ≡ line_layer self }
    {
        match self {
            LineFault::Text(_) => Layer::Text,
            LineFault::Call(fault) => fault.layer(),
        }
    }

    // The faulty field from 1; 0 for a line as a whole and for a refused call.
    pub fn field(self) -> usize
        ensures { result ≡ line_field self }
    {
        match self {
            LineFault::Text(fault) => fault.field(),
            LineFault::Call(_) => 0,
        }
    }
}

// The conversions are written out and not derived with the errors, so that clauses know which refusal a `?` makes.
impl From<WindowFault> for SearchFault {
    ghost from_gives = { λ f r. r ≡ Window f };

    fn from(cause: WindowFault) -> SearchFault {
        SearchFault::Window(cause)
    }
}

impl From<OrderFault> for SearchFault {
    ghost from_gives = { λ f r. r ≡ Order f };

    fn from(cause: OrderFault) -> SearchFault {
        SearchFault::Order(cause)
    }
}

impl From<TextFault> for LineFault {
    ghost from_gives = { λ f r. r ≡ Text f };

    fn from(cause: TextFault) -> LineFault {
        LineFault::Text(cause)
    }
}

impl From<SearchFault> for LineFault {
    ghost from_gives = { λ f r. r ≡ Call f };

    fn from(cause: SearchFault) -> LineFault {
        LineFault::Call(cause)
    }
}

impl From<WindowFault> for LineFault {
    ghost from_gives = { λ f r. r ≡ Call (Window f) };

    fn from(refusal: WindowFault) -> LineFault {
        LineFault::Call(SearchFault::Window(refusal))
    }
}

// A refused call is told by its number, and a refused line by its number, layer and field.
pub fn numbers_tell()
    ensures { NumbersTell }
{}
