// What bytes are cut into, as a theorem on its contract.
ghost use Rattle.text.specs.PieceLaws.{CutWhole};

// Pieces with a stop between each two are the bytes again, and there is no other such way to cut them.
pub fn pieces_join()
    ensures { CutWhole }
{}
