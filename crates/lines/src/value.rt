// What a field says.
ghost use Rattle.std.specs.Prelude.{◌≡◌, MatchBool};
ghost use Rattle.lines.specs.Fits.{Fits};
ghost use Rattle.lines.specs.Rows.{figure_in, price_in, day_in, cover_in};
ghost use Rattle.lines.specs.Values.{price_value};
ghost use Rattle.text.specs.Figures.{Short};

use crate::shape::Kind;
use tariff::blocks::DayKind;
use tariff::charges::Cover;

#[derive(Clone, Copy)]
pub(crate) enum Value {
    Figure(i64),
    Missing,
    Day(DayKind),
    Cover(Cover),
}

// Whether a figure has at most 12 digits.
fn is_short(figure: i64) -> bool
    ensures { MatchBool result (Short figure) (¬ Short figure) }
{
    figure.unsigned_abs() < 1_000_000_000_000
}

impl Value {
    pub(crate) fn fits(self, kind: Kind) -> bool
        ensures { MatchBool result (Fits kind self) (¬ Fits kind self) }
    {
        match kind {
            Kind::Figure => match self {
                Value::Figure(figure) => is_short(figure),
                _ => false,
            },
            Kind::Price => match self {
                Value::Figure(figure) => is_short(figure),
                Value::Missing => true,
                _ => false,
            },
            Kind::Day => matches!(self, Value::Day(_)),
            Kind::Cover => matches!(self, Value::Cover(_)),
        }
    }

    // A price or a factor, which may be missing.
    pub(crate) fn of_price(price: Option<i64>) -> Value
        ensures { result ≡ price_value price }
    {
        price.map_or(Value::Missing, Value::Figure)
    }

    // The values of a row fit its kinds, so that the last arm of each of these four is never asked for.
    pub(crate) fn figure(self) -> i64
        ensures { result ≡ figure_in self }
    {
        match self {
            Value::Figure(figure) => figure,
            _ => 0,
        }
    }

    pub(crate) fn price(self) -> Option<i64>
        ensures { result ≡ price_in self }
    {
        match self {
            Value::Figure(figure) => Some(figure),
            _ => None,
        }
    }

    pub(crate) fn day(self) -> DayKind
        ensures { result ≡ day_in self }
    {
        match self {
            Value::Day(kind) => kind,
            _ => DayKind::Workday,
        }
    }

    pub(crate) fn cover(self) -> Cover
        ensures { result ≡ cover_in self }
    {
        match self {
            Value::Cover(cover) => cover,
            _ => Cover::Covered,
        }
    }
}
