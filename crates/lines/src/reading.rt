// Reading a line.
mod spelling;

ghost use Rattle.std.specs.Prelude.{◌≡◌, ◌≢◌, ℕ, List, [], ◌∷◌, length, MatchOption};
ghost use Rattle.lines.specs.Reading.{Reads};
ghost use Rattle.lines.specs.Shapes.{letter_of, kinds_of};
ghost use Rattle.text.specs.Fields.{fields_left};

use crate::entry::LineEntry;
use crate::shape::Shape;
use spelling::{mark_of, row_in};
use tariff::refusal::Refusal;
use text::fields::Fields;

// The shape that the next field begins: a letter alone.
fn shape_begun(fields: &mut Fields) -> Option<Shape>
    ensures { MatchOption result
        ((shape : Shape) (rest : List (List ℕ)) → fields_left fields.old ≢ (letter_of shape ∷ []) ∷ rest)
        (λ shape. fields_left fields.old ≡ (letter_of shape ∷ []) ∷ fields_left fields.new) }
{
    let letter = mark_of(fields.next()?)?;
    Shape::begun_by(letter)
}

// The shape of the same letter that has as many fields as are still to come.
fn shape_with(first: Shape, fields: &Fields) -> Option<Shape>
    ensures { MatchOption result
        ((shape : Shape) → letter_of shape ≡ letter_of first
        → length (fields_left fields.now) ≢ length (kinds_of shape))
        (λ shape. (letter_of shape ≡ letter_of first)
        × (length (fields_left fields.now) ≡ length (kinds_of shape))) }
{
    fields.are(first.kinds().len()).then_some(first)
}

// The entry that a line says, or the first refusal that it meets.
pub fn read(line: &[u8]) -> Result<LineEntry, Refusal>
    ensures { Reads line.now result }
{
    if line.len() > 80 {
        return Err(Refusal::LineTooLong);
    }
    let mut fields = Fields::new(line);
    let first = shape_begun(&mut fields).ok_or(Refusal::UnknownLetter)?;
    let shape = shape_with(first, &fields).ok_or(Refusal::FieldCount)?;
    match row_in(shape, fields) {
        Ok(row) => Ok(row.entry()),
        Err(position) => Err(Refusal::Misspelt { position }),
    }
}
