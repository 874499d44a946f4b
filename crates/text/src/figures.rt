// Figures in text: `0`, or an optional hyphen and 1 to 12 decimal digits without a leading 0.
ghost use Rattle.std.specs.Prelude.{◌≡◌, ◌+◌, ◌≤◌, length, decimal, if◌then◌else◌, Some, None};
ghost use Rattle.text.specs.Figures.{ReadsSize, ReadsFigure, figure_text};
ghost use Rattle.text.specs.Placing.{has_room, put_at};

// The size that the bytes write, if they are 1 to 12 digits without a leading 0.
fn size(bytes: &[u8]) -> Option<u64>
    ensures { ReadsSize bytes.now result }
{
    if bytes.is_empty() || bytes.len() > 12 {
        return None;
    }
    if bytes[0] == b'0' && bytes.len() > 1 {
        return None;
    }
    let mut size = 0;
    for byte in bytes {
        if !byte.is_ascii_digit() {
            return None;
        }
        size = size * 10 + u64::from(*byte - b'0');
    }
    Some(size)
}

// The figure that the bytes write, if they write one.
pub fn figure(bytes: &[u8]) -> Option<i64>
    ensures { ReadsFigure bytes.now result }
{
    match bytes {
        [b'-', digits @ ..] => match size(digits)? {
            0 => None,
            size => Some(-(size as i64)),
        },
        _ => Some(size(bytes)? as i64),
    }
}

// How many digits a size has.
fn digits(size: u64) -> usize
    ensures { result ≡ length (decimal size) }
{
    match size.checked_ilog10() {
        Some(power) => power as usize + 1,
        None => 1,
    }
}

// Writes the digits of a size over bytes of just their number, from the last to the first.
#[tactic(auto, using(crate::proofs::Digits::digits_more))]
fn write_digits(target: &mut [u8], size: u64)
    requires { length target.old ≡ length (decimal size) }
    ensures { target.new ≡ decimal size }
{
    let mut rest = size;
    let mut end = target.len();
    while rest >= 10 {
        end -= 1;
        target[end] = b'0' + (rest % 10) as u8;
        rest /= 10;
    }
    target[0] = b'0' + rest as u8;
}

// How many bytes a figure takes.
#[tactic(auto, using(crate::proofs::Digits::few_digits))]
pub fn figure_len(value: i64) -> usize
    ensures len { result ≡ length (figure_text value) }
    ensures few { result ≤ 20 }
{
    let count = digits(value.unsigned_abs());
    if value < 0 { count + 1 } else { count }
}

// Puts the text of a figure at a place where there is room for it, and answers where it ends.
pub fn put_figure(target: &mut [u8], at: usize, value: i64) -> Option<usize>
    ensures put { target.new ≡ (if has_room at (figure_text value) target.old
        then put_at at (figure_text value) target.old else target.old) }
    ensures end { result ≡ (if has_room at (figure_text value) target.old
        then Some (at + length (figure_text value)) else None) }
{
    let len = figure_len(value);
    if target.len() < len || target.len() - len < at {
        return None;
    }
    let size = value.unsigned_abs();
    let end = at + len;
    if value < 0 {
        target[at] = b'-';
        write_digits(&mut target[at + 1..end], size);
    } else {
        write_digits(&mut target[at..end], size);
    }
    Some(end)
}
