// What is written of a line.
ghost use Rattle.std.specs.Prelude.{OnOk, suc, ◌≤◌};
ghost use Rattle.std.specs.Io.KnownBytes.{Appends};
ghost use Rattle.session.specs.Replies.{balance_text, balances_text, reply_text};

use crate::session::Session;
use book::book::Book;
use book::entry::Entry;
use lines::entry::LineEntry;
use std::io;
use std::io::Write;
use tariff::refusal::Refusal;

// Writes what an account has.
fn write_balance<W: Write>(book: &Book, account: usize, writer: &mut W) -> io::Result<()>
    requires { account ≤ book.now.pool.parties }
    ensures { OnOk result (Appends (W.contents writer.old) (W.contents writer.new) (balance_text book.now account)) }
{
    match book.balance(account as i64) {
        Ok(cents) => writeln!(writer, "=\t{account}\t{cents}"),
        Err(_) => Ok(()),
    }
}

// Writes what each account has, the pool's first.
fn write_balances<W: Write>(book: &Book, writer: &mut W) -> io::Result<()>
    ensures { OnOk result (Appends (W.contents writer.old) (W.contents writer.new)
        (balances_text book.now (suc book.now.pool.parties))) }
{
    for account in 0..=book.parties() {
        write_balance(book, account, writer)?;
    }
    Ok(())
}

impl Session {
    // Writes what a line that was taken is told: of an accepted entry its letter, and of a close the balances that it
    // leaves; of a refusal its number and its places.
    pub fn reply<W: Write>(
        &self,
        taken: Result<LineEntry, Refusal>,
        writer: &mut W,
    ) -> io::Result<()>
        ensures { OnOk result (Appends (W.contents writer.old) (W.contents writer.new) (reply_text self.now taken)) }
    {
        match taken {
            Ok(entry) => {
                writer.write_all(&[b'+', b'\t', entry.letter(), b'\n'])?;
                match (&self.book, entry) {
                    (Some(book), LineEntry::Call(Entry::Close)) => write_balances(book, writer),
                    _ => Ok(()),
                }
            }
            Err(refusal) => {
                let (first, second) = refusal.places();
                writeln!(writer, "!\t{}\t{first}\t{second}", refusal.number())
            }
        }
    }
}
