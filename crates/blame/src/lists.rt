use anyhow::bail;
use change::list::BadList;
use change::refusal::Told;
use change::valid::ValidList;
use listing::read::{Recorded, read};
use ranges::blame_ranges::BlameRanges;
use runs::count::{LineCount, count_valid};
use runs::part::part;
use runs::row::{Origin, Row};
use runs::rows::rows;
use std::fmt;

// What became of the lists, and the lines that they set and kept.
#[derive(Clone, Copy, Default)]
struct Summary {
    judged: u64,
    refused: u64,
    unread: u64,
    set: u64,
    kept: u64,
}

impl Summary {
    // So many lines more.
    fn count(&mut self, lines: LineCount) {
        self.set = self.set.saturating_add(u64::from(lines.set));
        self.kept = self.kept.saturating_add(u64::from(lines.kept));
    }

    // The lines of one more row.
    fn count_row(&mut self, row: Row) {
        let lines = row.lines.len();
        let (set, kept) = match row.origin {
            Origin::Set => (lines, 0),
            Origin::Kept(_) => (0, lines),
        };
        self.count(LineCount { set, kept });
    }
}

impl fmt::Display for Summary {
    fn fmt<W: fmt::Write>(&self, f: &mut fmt::Formatter<W>) -> fmt::Result {
        let Summary {
            judged,
            refused,
            unread,
            set,
            kept,
        } = *self;
        let lists = judged.saturating_add(refused).saturating_add(unread);
        write!(
            f,
            "lists: {lists}, refused: {refused}, not judged: {unread}; lines set: {set}, kept: {kept}"
        )
    }
}

// Prints what a text of recorded lists says of the lines asked for.
#[derive(Drop)]
struct Printer<'a> {
    rt: &'a HostRuntime,
    asked: &'a BlameRanges,
    summary: Summary,
}

impl Printer<'_> {
    // A list, if all its lines are changes.
    fn list(&mut self, list: &Recorded) -> anyhow::Result<()> {
        let name = String::from_utf8_lossy(self.rt.alloc(), list.name)?;
        println!(self.rt; "commit {name}")?;
        if list.strays.is_empty() {
            return self.judge(list);
        }
        for line in list.strays.iter() {
            println!(self.rt; "  line {line} of the input is no change")?;
        }
        println!(self.rt; "  not judged")?;
        self.summary.unread = self.summary.unread.saturating_add(1);
        Ok(())
    }

    // The rows of a list and its totals, or why it is refused.
    fn judge(&mut self, list: &Recorded) -> anyhow::Result<()> {
        match ValidList::new(&list.changes) {
            Ok(valid) => {
                self.rows(valid)?;
                self.summary.judged = self.summary.judged.saturating_add(1);
            }
            Err(bad) => {
                self.refuse(list, bad)?;
                self.summary.refused = self.summary.refused.saturating_add(1);
            }
        }
        Ok(())
    }

    // The lines asked for, row by row, and the totals. Where some are asked, they are
    // counted here; those of a whole list are counted apart. (`rows` checks the list once
    // more. One for a `ValidList` would save nothing here: memory can be wanting all the same.)
    fn rows(&mut self, list: ValidList) -> anyhow::Result<()> {
        let Ok(rows) = rows(self.rt.alloc(), list.changes) else {
            bail!("no memory for the rows of a list");
        };
        let clipped = self.asked.to_zero_based_exclusive_ranges(list.totals.new);
        for row in rows.iter() {
            for range in clipped.as_slice() {
                if let Some(part) = part(*row, *range) {
                    println!(self.rt; "  {part}")?;
                    if !self.asked.is_whole_file() {
                        self.summary.count_row(part);
                    }
                }
            }
        }
        let new = list.totals.new;
        let old = list.totals.old;
        println!(self.rt; "  lines: {new} here, {old} in the parent")?;
        if self.asked.is_whole_file() {
            self.summary.count(count_valid(list));
        }
        Ok(())
    }

    // Changes count from one here, as the lines of the input do.
    fn refuse(&self, list: &Recorded, bad: BadList) -> anyhow::Result<()> {
        let change = bad.position.saturating_add(1);
        let line = list.line.saturating_add(change);
        let bad = Told(bad);
        println!(self.rt; "  refused: {bad}, change {change}, line {line} of the input")?;
        Ok(())
    }
}

// Prints what the text of recorded lists says of the lines asked for.
pub fn run(rt: &HostRuntime, text: &[u8], asked: &BlameRanges) -> anyhow::Result<()> {
    let listing = read(rt.alloc(), text)?;
    for line in listing.strays.iter() {
        println!(rt; "line {line} of the input belongs to no list")?;
    }
    let mut printer = Printer {
        rt,
        asked,
        summary: Summary::default(),
    };
    for list in listing.lists.iter() {
        printer.list(list)?;
    }
    let summary = printer.summary;
    println!(rt; "{summary}")?;
    Ok(())
}
