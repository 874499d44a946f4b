// Two texts, compared byte for byte, and their lines.
ghost use Rattle.std.specs.Prelude.{◌≡◌, ◌≤◌, ◌==◌, length, count_by, take, MatchOption};
ghost use Rattle.text.specs.Lines.{lines_in};
ghost use Rattle.sessions.specs.Parting.{PartAt, line_at};

const LINE_FEED: u8 = b'\n';

// Where two texts first part: a byte differs, or one of them ends.
pub fn first_difference(given: &[u8], expected: &[u8]) -> Option<usize>
    ensures { MatchOption result (given.now ≡ expected.now) (λ place. PartAt place given.now expected.now) }
{
    let common = given.len().min(expected.len());
    for place in 0..common {
        if given[place] != expected[place] {
            return Some(place);
        }
    }
    if given.len() == expected.len() {
        None
    } else {
        Some(common)
    }
}

// How many of the first bytes of a text are line feeds.
fn feeds_before(text: &[u8], place: usize) -> usize
    ensures count { result ≡ count_by (λ byte. byte == LINE_FEED) (take place text.now) }
    ensures few { result ≤ length text.now }
{
    text.iter()
        .take(place)
        .filter(|byte| **byte == LINE_FEED)
        .count()
}

// In which line of a text a place stands, counted from 1.
pub fn line_of(text: &[u8], place: usize) -> usize
    ensures { result ≡ line_at place text.now }
{
    feeds_before(text, place) + 1
}

// How many lines a text has.
pub fn line_count(text: &[u8]) -> usize
    ensures { result ≡ length (lines_in text.now) }
{
    let mut ended = 0;
    let mut goes_on = false;
    for byte in text {
        if *byte == LINE_FEED {
            ended += 1;
            goes_on = false;
        } else {
            goes_on = true;
        }
    }
    if goes_on { ended + 1 } else { ended }
}
