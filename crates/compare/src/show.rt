use hunk::row::HunkRow;
use std::fmt;

// Rows as `2 rows: 3..4 [1:0..1] 4..6 [2:1..3, 7:0..2]`.
#[derive(Clone, Copy)]
pub struct Rows<'a>(pub &'a [HunkRow]);

impl fmt::Display for Rows<'_> {
    fn fmt<W: fmt::Write>(&self, f: &mut fmt::Formatter<W>) -> fmt::Result {
        let size = self.0.len();
        write!(f, "{size} rows:")?;
        for row in self.0 {
            write!(f, " {row}")?;
        }
        Ok(())
    }
}
