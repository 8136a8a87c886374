// The worked cases of hunks that are cut, of asked ranges and of credited lines, in
// one statement.

#![tactic(auto)]

ghost use Rattle.cases.specs.Cases.{CasesHold};

// A hunk cut by a replacement, cut at a deletion, ending at one, and behind added
// lines; ranges that touch and ranges apart; entries that join and entries that don't.
pub fn cases_hold()
    ensures { CasesHold }
{}
