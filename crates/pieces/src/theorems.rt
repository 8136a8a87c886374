// Statements about pieces, each on the contract of a function.
ghost use Rattle.pieces.specs.ByLine.{PiecesByLine};
ghost use Rattle.pieces.specs.Cases.{CasesHold};

// Each line of a hunk that names the commit is in one piece, with the parent where the list keeps it.
pub fn pieces_by_line()
    ensures { PiecesByLine }
{}

// Hunks cut by a replacement, cut at a deletion, ending at one, and behind added lines.
pub fn cases_hold()
    ensures { CasesHold }
{}
