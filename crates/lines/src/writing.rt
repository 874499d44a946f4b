// Writing a line.
mod placing;

ghost use Rattle.std.specs.Prelude.{◌≡◌, length, MatchOption};
ghost use Rattle.lines.specs.Fits.{Fits, FitAll};
ghost use Rattle.lines.specs.Positions.{FirstFailing};
ghost use Rattle.lines.specs.Writing.{Writes};

use crate::entry::LineEntry;
use crate::row::Row;
use crate::shape::Kind;
use crate::value::Value;
use placing::{line_len, put_fields};
use tariff::refusal::Refusal;

// The position of the first value that does not fit its kind.
fn unfit(kinds: &[Kind], values: &[Value]) -> Option<u64>
    requires { length values.now ≡ length kinds.now }
    ensures { MatchOption result (FitAll kinds.now values.now)
        (λ position. FirstFailing Fits kinds.now values.now position) }
{
    for (i, value) in values.iter().enumerate() {
        if !value.fits(kinds[i]) {
            return Some(i as u64 + 1);
        }
    }
    None
}

// Puts the line of an entry at the front of the target, and answers how many bytes it has.
pub fn write(entry: LineEntry, target: &mut [u8]) -> Result<usize, Refusal>
    ensures { Writes entry target.old target.new result }
{
    let row = Row::of(entry);
    let values = row.values();
    if let Some(position) = unfit(row.shape.kinds(), values) {
        return Err(Refusal::Misspelt { position });
    }
    let needed = line_len(values);
    if target.len() < needed {
        return Err(Refusal::ShortTarget {
            needed: needed as u64,
        });
    }
    target[0] = row.shape.letter();
    Ok(put_fields(target, 1, values))
}
