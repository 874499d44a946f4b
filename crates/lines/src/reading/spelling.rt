// What a field says, by its kind.
ghost use Rattle.std.specs.Prelude.{◌≡◌, ℕ, List, [], ◌∷◌, length, MatchOption, MatchResult};
ghost use Rattle.lines.specs.Positions.{FirstFailing};
ghost use Rattle.lines.specs.Reading.{Says, Spelt};
ghost use Rattle.lines.specs.Rows.{IsSpelt};
ghost use Rattle.lines.specs.Shapes.{kinds_of};
ghost use Rattle.text.specs.Fields.{fields_left, bytes_of, Begins, Sorted};
ghost use Rattle.text.specs.Figures.{ReadsFigure};

use crate::row::{MOST, Row};
use crate::shape::{Kind, Shape};
use crate::value::Value;
use tariff::blocks::DayKind;
use tariff::charges::Cover;
use text::fields::{Field, Fields};
use text::figures::figure;

fn figure_of(field: Field) -> Option<i64>
    requires { Sorted field }
    ensures { ReadsFigure (bytes_of field.entry) result }
{
    match field {
        Field::Figure(bytes) => figure(bytes),
        _ => None,
    }
}

// The one byte of a mark, as a character.
pub(super) fn mark_of(field: Field) -> Option<char>
    requires { Sorted field }
    ensures { MatchOption result ((byte : ℕ) → bytes_of field.entry ≡ byte ∷ [] → Begins (byte ∷ []))
        (λ mark. bytes_of field.entry ≡ mark ∷ []) }
{
    match field {
        Field::Mark([byte]) => Some(char::from(*byte)),
        _ => None,
    }
}

fn value_of(kind: Kind, field: Field) -> Option<Value>
    requires { Sorted field }
    ensures { MatchOption result ((value : Value) → ¬ Says kind (bytes_of field.entry) value)
        (λ value. Says kind (bytes_of field.entry) value) }
{
    match kind {
        Kind::Figure => figure_of(field).map(Value::Figure),
        Kind::Price => match field {
            Field::Hyphen(_) => Some(Value::Missing),
            _ => figure_of(field).map(Value::Figure),
        },
        Kind::Day => match mark_of(field) {
            Some('W') => Some(Value::Day(DayKind::Workday)),
            Some('S') => Some(Value::Day(DayKind::Sunday)),
            _ => None,
        },
        Kind::Cover => match mark_of(field) {
            Some('C') => Some(Value::Cover(Cover::Covered)),
            Some('N') => Some(Value::Cover(Cover::Uncovered)),
            _ => None,
        },
    }
}

fn next_value(kind: Kind, fields: &mut Fields) -> Option<Value>
    ensures { MatchOption result
        ((field : List ℕ) (rest : List (List ℕ)) → fields_left fields.old ≡ field ∷ rest → ¬ Spelt kind field)
        (λ value. (field : List ℕ)
        × (Says kind field value × (fields_left fields.old ≡ field ∷ fields_left fields.new))) }
{
    value_of(kind, fields.next()?)
}

// The row of a shape that the fields still to come say, or the position of the first that is misspelt.
pub(super) fn row_in(shape: Shape, fields: Fields) -> Result<Row, u64>
    requires { length (fields_left fields) ≡ length (kinds_of shape) }
    ensures { MatchResult result
        (λ row. IsSpelt shape (fields_left fields.entry) row)
        (λ position. FirstFailing Spelt (kinds_of shape) (fields_left fields.entry) position) }
{
    let mut rest = fields;
    let mut values = [Value::Missing; MOST];
    for (i, &kind) in shape.kinds().iter().enumerate() {
        match next_value(kind, &mut rest) {
            Some(value) => values[i] = value,
            None => return Err(i as u64 + 1),
        }
    }
    Ok(Row { shape, values })
}
