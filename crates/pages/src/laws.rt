// A theorem about pages, on the contract of a function that does nothing else.
ghost use Rattle.pages.specs.Laws.{WritesOneEntry};

// A written entry is read back, and no other entry changes.
pub fn writes_one_entry<E: Copy>()
    ensures { WritesOneEntry E }
{}
