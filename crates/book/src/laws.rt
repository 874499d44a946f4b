// The guarantee over every run of calls, as a theorem.
ghost use Rattle.std.specs.Prelude.{List};
ghost use Rattle.tally.specs.States.{SetUp};
ghost use Rattle.book.specs.Guarantee.{Stands};
ghost use Rattle.book.specs.Histories.{Made};
ghost use Rattle.book.specs.Runs.{Run};
ghost use Rattle.book.specs.declared.book.Book.{Book};

// Whatever calls led from a set-up to a book, each of them as its own contract says, the guarantee stands.
pub fn every_run_stands()
    ensures { (set_up : SetUp) (start : Book) (history : List Made) (book : Book)
        → Run set_up start history book → Stands set_up start history book }
{}
