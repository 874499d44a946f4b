// A session over whatever a reader gives: each line is answered once, in order.
ghost use Rattle.std.specs.Prelude.{◌≡◌, ◌≢◌, ◌≤◌, [], ◌∷◌, take, drop, IsOk, IfErr};
ghost use Rattle.std.specs.Io.{ReadsAtMost};
ghost use Rattle.std.specs.Io.KnownBytes.{ReadConsumes};
ghost use Rattle.std.specs.IoError.{error_kind};
ghost use Rattle.text.specs.Lines.{but_empty_end};
ghost use Rattle.session.specs.Texts.{LinesAnswered, EndedAnswered, TextAnswered};

use crate::session::Session;
use std::io;
use std::io::{ErrorKind, Read, Write};
use text::pieces::end_of;

// What can keep a session from going on.
#[derive(Debug, Drop)]
pub enum Failure {
    Reading(io::Error),
    Writing(io::Error),
}

// How many bytes are held at once. A line that goes on past them is too long, of which only the front is kept.
const HELD: usize = 65_536;

// How much is kept of a line that has not ended: with so many bytes it is too long already.
const KEPT: usize = 81;

// Takes a line and writes what it is told.
fn answer<W: Write>(session: &mut Session, line: &[u8], writer: &mut W) -> io::Result<()>
    ensures { LinesAnswered session.old session.new (IsOk result) (W.contents writer.old) (W.contents writer.new)
        (line.now ∷ []) }
{
    let taken = session.take(line);
    session.reply(taken, writer)
}

// Answers each line that a line feed ends, and tells where what follows them begins.
fn answer_ended<W: Write>(session: &mut Session, bytes: &[u8], writer: &mut W) -> io::Result<usize>
    ensures { EndedAnswered bytes.now session.old session.new result (W.contents writer.old) (W.contents writer.new) }
{
    let mut from = 0;
    let mut end = end_of(bytes, 0, b'\n');
    while end < bytes.len() {
        answer(session, &bytes[from..end], writer)?;
        from = end + 1;
        end = end_of(bytes, from, b'\n');
    }
    writer.flush()?;
    Ok(from)
}

// Answers what a line feed does not end: it is a line if there are bytes.
fn answer_last<W: Write>(session: &mut Session, bytes: &[u8], writer: &mut W) -> io::Result<()>
    ensures { LinesAnswered session.old session.new (IsOk result) (W.contents writer.old) (W.contents writer.new)
        (but_empty_end (bytes.now ∷ [])) }
{
    if bytes.is_empty() {
        return Ok(());
    }
    answer(session, bytes, writer)?;
    writer.flush()
}

// Moves the front of what stands from a place up to another to the beginning, and tells how much that is.
fn keep(held: &mut [u8; HELD], from: usize, to: usize) -> usize
    requires order { from ≤ to }
    requires within { to ≤ 65536 }
    ensures kept { take result held.new ≡ take 81 (drop from (take to held.old)) }
    ensures few { result ≤ 81 }
{
    let kept = (to - from).min(KEPT);
    held.copy_within(from..from + kept, 0);
    kept
}

// Reads once more where a read was interrupted. So many interruptions never come: the count makes the call end for
// every reader.
fn read_some<R: Read>(reader: &mut R, bytes: &mut [u8]) -> io::Result<usize>
    ensures read { ReadConsumes (R.remaining reader.old) (R.remaining reader.new) result bytes.new }
    ensures bound { ReadsAtMost result bytes.new }
    ensures retried { IfErr result (λ e. error_kind e ≢ ErrorKind.Interrupted) }
{
    for _ in 0..u64::MAX {
        match reader.read(bytes) {
            Ok(count) => return Ok(count),
            Err(e) if e.kind() == ErrorKind::Interrupted => {}
            Err(e) => return Err(e),
        }
    }
    Err(io::Error::from(ErrorKind::TimedOut))
}

// Answers the lines of all that a reader has left, as soon as they are there. Memory does not grow with them. So many reads
// never come, either.
pub fn serve<R: Read, W: Write>(
    session: &mut Session,
    reader: &mut R,
    writer: &mut W,
) -> Result<(), Failure>
    ensures { TextAnswered (R.remaining reader.old) (R.remaining reader.new) session.old session.new result
        (W.contents writer.old) (W.contents writer.new) }
{
    let mut held = [0; HELD];
    let mut kept = 0;
    for _ in 0..u64::MAX {
        let count = match read_some(reader, &mut held[kept..]) {
            Ok(count) => count,
            Err(e) => return Err(Failure::Reading(e)),
        };
        if count == 0 {
            return match answer_last(session, &held[..kept], writer) {
                Ok(()) => Ok(()),
                Err(e) => Err(Failure::Writing(e)),
            };
        }
        let to = kept + count;
        let from = match answer_ended(session, &held[..to], writer) {
            Ok(from) => from,
            Err(e) => return Err(Failure::Writing(e)),
        };
        kept = keep(&mut held, from, to);
    }
    Err(Failure::Reading(io::Error::from(ErrorKind::TimedOut)))
}
