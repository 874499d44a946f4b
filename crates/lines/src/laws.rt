// That reading and writing undo each other, as theorems on their contracts.
ghost use Rattle.lines.specs.Laws.{ReadsBack, OneLine, ShortLines, BehindStays, OneAnswer, FirstBytes};

pub fn lines_stand()
    ensures reads_back { ReadsBack }
    ensures one_line { OneLine }
    ensures short_lines { ShortLines }
    ensures behind_stays { BehindStays }
    ensures one_answer { OneAnswer }
    ensures first_bytes { FirstBytes }
{}
