// Where a piece of bytes ends.
ghost use Rattle.std.specs.Prelude.{◌≡◌, ◌≤◌, ◌==◌, length};
ghost use Rattle.std.specs.List.{position_or_len};
ghost use Rattle.text.specs.Pieces.{end_in};

// How many bytes stand before the first `stop`, or else how many there are.
fn length_before(bytes: &[u8], stop: u8) -> usize
    ensures count { result ≡ position_or_len (λ byte. byte == stop) bytes.now }
    ensures within { result ≤ length bytes.now }
{
    bytes
        .iter()
        .position(|byte| *byte == stop)
        .unwrap_or(bytes.len())
}

// Where the first `stop` at or after `from` stands, or else where the bytes end.
pub fn end_of(bytes: &[u8], from: usize, stop: u8) -> usize
    ensures end { result ≡ end_in stop bytes.now from }
    ensures within { result ≤ length bytes.now }
    ensures after { from ≤ length bytes.now → from ≤ result }
{
    let from = from.min(bytes.len());
    from + length_before(&bytes[from..], stop)
}
