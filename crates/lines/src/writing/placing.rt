// The bytes of values, measured and put in place.
ghost use Rattle.std.specs.Prelude.{◌≡◌, ◌+◌, ◌<◌, ◌≤◌, [], ◌∷◌, length};
ghost use Rattle.lines.specs.Texts.{text_of, fields_text};
ghost use Rattle.text.specs.Placing.{put_at};

use crate::value::Value;
use tariff::blocks::DayKind;
use tariff::charges::Cover;
use text::figures::{figure_len, put_figure};

// How many bytes a value takes.
fn value_len(value: Value) -> usize
    ensures len { result ≡ length (text_of value) }
    ensures few { result ≤ 20 }
{
    match value {
        Value::Figure(figure) => figure_len(figure),
        Value::Missing | Value::Day(_) | Value::Cover(_) => 1,
    }
}

// How many bytes a line with these values takes.
pub(super) fn line_len(values: &[Value]) -> usize
    requires { length values.now ≤ 5 }
    ensures { result ≡ 1 + length (fields_text values.now) }
{
    let mut len = 1;
    for value in values {
        len += 1 + value_len(*value);
    }
    len
}

// Puts a byte at a place, and answers where it ends.
fn put_byte(target: &mut [u8], at: usize, byte: u8) -> usize
    requires { at < length target.old }
    ensures put { target.new ≡ put_at at (byte ∷ []) target.old }
    ensures end { result ≡ at + 1 }
{
    target[at] = byte;
    at + 1
}

// Puts the text of a value at a place, and answers where it ends.
fn put_value(target: &mut [u8], at: usize, value: Value) -> usize
    requires { at + length (text_of value) ≤ length target.old }
    ensures put { target.new ≡ put_at at (text_of value) target.old }
    ensures end { result ≡ at + length (text_of value) }
{
    match value {
        // There is room for it.
        Value::Figure(figure) => put_figure(target, at, figure).unwrap_or(at),
        Value::Missing => put_byte(target, at, b'-'),
        Value::Day(DayKind::Workday) => put_byte(target, at, b'W'),
        Value::Day(DayKind::Sunday) => put_byte(target, at, b'S'),
        Value::Cover(Cover::Covered) => put_byte(target, at, b'C'),
        Value::Cover(Cover::Uncovered) => put_byte(target, at, b'N'),
    }
}

// Puts a tab and the text of a value at a place, and answers where they end.
fn put_field(target: &mut [u8], at: usize, value: Value) -> usize
    requires { at + (1 + length (text_of value)) ≤ length target.old }
    ensures put { target.new ≡ put_at at (9 ∷ text_of value) target.old }
    ensures end { result ≡ at + (1 + length (text_of value)) }
{
    target[at] = b'\t';
    put_value(target, at + 1, value)
}

// Puts a tab and the text of each value from a place on, and answers where they end.
pub(super) fn put_fields(target: &mut [u8], from: usize, values: &[Value]) -> usize
    requires { from + length (fields_text values.now) ≤ length target.old }
    ensures put { target.new ≡ put_at from (fields_text values.now) target.old }
    ensures end { result ≡ from + length (fields_text values.now) }
{
    let mut at = from;
    for value in values {
        at = put_field(target, at, *value);
    }
    at
}
