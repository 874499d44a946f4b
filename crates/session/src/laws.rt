// The guarantee over every text, as a theorem.
ghost use Rattle.std.specs.Prelude.{◌≡◌, ℕ, List, None};
ghost use Rattle.book.specs.Histories.{Made};
ghost use Rattle.session.specs.Courses.{Course};
ghost use Rattle.session.specs.Stands.{BookStands};
ghost use Rattle.session.specs.declared.session.Session.{Session};

// Whatever lines led from a session without a book to another one, each of them as its own contract says: its book was
// set up by one of them, the calls of the rest led to it, and the guarantee stands.
pub fn every_course_stands()
    ensures { (start : Session) (lines : List (List ℕ)) (replies : List ℕ) (history : List Made) (session : Session)
        → start.book ≡ None → Course start lines replies history session → BookStands lines history session.book }
{}
