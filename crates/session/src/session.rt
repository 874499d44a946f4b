// A sheet of prices, and the book once it is set up.
ghost use Rattle.tariff.specs.Answers.{told};
ghost use Rattle.session.specs.Fresh.{IsFresh};
ghost use Rattle.session.specs.Entries.{CallTaken, SetUpTaken, EntryApplied};
ghost use Rattle.session.specs.Lines.{LineTaken};

use book::book::Book;
use book::entry::Entry;
use book::payment::Payment;
use book::statement::Statement;
use lines::entry::LineEntry;
use lines::reading::read;
use pages::page::{PAGE_ENTRIES, Page};
use rules::largest::LargestRemainder;
use sheets::hour_sheet::HourSheet;
use tariff::refusal::Refusal;

#[derive(Drop)]
pub struct Session {
    pub(crate) sheet: HourSheet,
    pub(crate) book: Option<Book>,
    heavy: [Payment; PAGE_ENTRIES],
    light: [Payment; PAGE_ENTRIES],
}

impl Session {
    // Every price is missing, and no book is set up.
    pub fn new() -> Session
        ensures { IsFresh result }
    {
        Session {
            sheet: HourSheet::new(),
            book: None,
            heavy: [Payment::NONE; PAGE_ENTRIES],
            light: [Payment::NONE; PAGE_ENTRIES],
        }
    }

    // Sets the book up, which a session does once.
    fn set_up(&mut self, parties: i64, full_rate: i64, step_rate: i64) -> Result<(), Refusal>
        ensures { SetUpTaken parties full_rate step_rate self.old (told result) self.new }
    {
        let book = Book::new(parties, full_rate, step_rate)?;
        if self.book.is_some() {
            return Err(Refusal::SecondSetUp);
        }
        self.book = Some(book);
        Ok(())
    }

    // Makes a call of the book: prices are the sheet's, and divisions go by largest remainder.
    fn call(&mut self, entry: Entry) -> Result<(), Refusal>
        ensures { CallTaken entry self.old (told result) self.new }
    {
        let Some(book) = &mut self.book else {
            return Err(Refusal::NotSetUp);
        };
        let mut heavy = Page::new(&mut self.heavy);
        let mut light = Page::new(&mut self.light);
        let mut statement = Statement {
            heavy: &mut heavy,
            light: &mut light,
        };
        book.enter(entry, &self.sheet, &mut LargestRemainder, &mut statement)
    }

    // Applies an entry to the sheet or to the book.
    pub fn enter(&mut self, entry: LineEntry) -> Result<(), Refusal>
        ensures { EntryApplied entry self.old (told result) self.new }
    {
        match entry {
            LineEntry::SetUp {
                parties,
                full_rate,
                step_rate,
            } => self.set_up(parties, full_rate, step_rate),
            LineEntry::DayPrices { day, heavy, light } => self.sheet.enter_day(day, heavy, light),
            LineEntry::HourPrices {
                first,
                last,
                real_time,
                factor,
            } => self.sheet.enter_hours(first, last, real_time, factor),
            LineEntry::Call(entry) => self.call(entry),
        }
    }

    // Reads a line and applies its entry. Tells the entry, or why the line is refused.
    pub fn take(&mut self, line: &[u8]) -> Result<LineEntry, Refusal>
        ensures { LineTaken line.now result self.old self.new }
    {
        let entry = read(line)?;
        self.enter(entry)?;
        Ok(entry)
    }
}
