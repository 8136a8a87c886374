use crate::suspect::Suspect;
use change::span::Span;
use std::fmt;

// A row of a table of hunks, right or wrong. The first `count` suspects are in use.
// (An array and a count for the reason that a hunk has them. The fields are a hunk's, without
// what is known of those: a hunk round a row would say no more, and each use of it would go
// through the row.)
#[derive(Clone, Copy, Debug, PartialEq, Eq, Default)]
pub struct HunkRow {
    pub range_in_blamed_file: Span,
    pub suspects: [Suspect; 8],
    pub count: usize,
}

// As `4..6 [2:1..3, 7:0..2]`, each suspect with its range. One that stands behind
// those in use, and is not zeros, is marked by `?`.
impl fmt::Display for HunkRow {
    fn fmt<W: fmt::Write>(&self, f: &mut fmt::Formatter<W>) -> fmt::Result {
        let range = self.range_in_blamed_file;
        write!(f, "{range} [")?;
        for (i, suspect) in self.suspects.iter().enumerate() {
            let used = i < self.count;
            if used || *suspect != Suspect::default() {
                let gap = if i > 0 { ", " } else { "" };
                let mark = if used { "" } else { "?" };
                let commit = suspect.source.commit;
                let range = suspect.range;
                write!(f, "{gap}{mark}{commit}:{range}")?;
            }
        }
        write!(f, "]")
    }
}
