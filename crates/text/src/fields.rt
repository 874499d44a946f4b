// The fields of a line, as parts of it.
ghost use Rattle.std.specs.Prelude.{◌≡◌, ◌≢◌, ◌==◌, ◌≤◌, [], ◌∷◌, length, count_by, MatchBool, MatchOption};
ghost use Rattle.text.specs.Fields.{fields_in, fields_left, bytes_of, Sorted, PartOf};

use crate::pieces::end_of;

// A field with its bytes, sorted by how it begins.
#[derive(Clone, Copy)]
pub enum Field<'a> {
    Figure(&'a [u8]),
    Mark(&'a [u8]),
    Hyphen(&'a [u8]),
}

// A hyphen alone is no figure, but what begins as a figure is one, misspelt or not.
fn field_of<'a>(bytes: &'a [u8]) -> Field<'a>
    ensures bytes { bytes_of result ≡ bytes.now }
    ensures sorted { Sorted result }
{
    match bytes {
        [b'-'] => Field::Hyphen(bytes),
        [b'-' | b'0'..=b'9', ..] => Field::Figure(bytes),
        _ => Field::Mark(bytes),
    }
}

fn tabs_in(bytes: &[u8]) -> usize
    ensures count { result ≡ count_by (λ byte. byte == 9) bytes.now }
    ensures few { result ≤ length bytes.now }
{
    bytes.iter().filter(|byte| **byte == b'\t').count()
}

// A line, and the place from which its fields are still to come.
#[derive(Clone, Copy)]
pub struct Fields<'a> {
    line: &'a [u8],
    place: usize,
}

impl<'a> Fields<'a> {
    pub fn new(line: &'a [u8]) -> Fields<'a>
        ensures { fields_left result ≡ fields_in line.now }
    {
        Fields { line, place: 0 }
    }

    // The next field: the part of the line from the place to the next tab or the end.
    pub fn next(&mut self) -> Option<Field<'a>>
        ensures { MatchOption result
            ((fields_left self.old ≡ []) × (self.new ≡ self.old))
            (λ field. (fields_left self.old ≡ bytes_of field ∷ fields_left self.new)
            × Sorted field × PartOf self.old self.new field) }
    {
        let line = self.line;
        let from = self.place;
        if from > line.len() {
            return None;
        }
        let end = end_of(line, from, b'\t');
        self.place = end + 1;
        Some(field_of(&line[from..end]))
    }

    // Whether just `count` fields are still to come.
    pub fn are(&self, count: usize) -> bool
        ensures { MatchBool result (length (fields_left self.now) ≡ count) (length (fields_left self.now) ≢ count) }
    {
        if self.place > self.line.len() {
            return count == 0;
        }
        count == tabs_in(&self.line[self.place..]) + 1
    }
}
