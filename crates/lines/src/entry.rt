// What a line says.
ghost use Rattle.std.specs.Prelude.{◌≡◌};
ghost use Rattle.lines.specs.Shapes.{letter_of, shape_of};

use crate::row::Row;
use book::entry::Entry;

// The pool's set-up, prices for the sheet, or a call of the book. Figures are as the line has them.
#[derive(Clone, Copy, Debug, PartialEq, Eq)]
pub enum LineEntry {
    SetUp {
        parties: i64,
        full_rate: i64,
        step_rate: i64,
    },
    DayPrices {
        day: i64,
        heavy: Option<i64>,
        light: Option<i64>,
    },
    HourPrices {
        first: i64,
        last: i64,
        real_time: Option<i64>,
        factor: Option<i64>,
    },
    Call(Entry),
}

impl LineEntry {
    // The letter that its line begins with.
    pub fn letter(&self) -> u8
        ensures { result ≡ letter_of (shape_of self.now) }
    {
        Row::of(*self).shape.letter()
    }
}
