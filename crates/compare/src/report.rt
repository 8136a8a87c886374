use crate::case::{Case, NoCase, read_case};
use crate::judge::{Verdict, judge};
use crate::show::Rows;
use anyhow::bail;
use change::refusal::Refusal;
use change::unmade::Unmade;
use std::fmt;
use text::lines::Lines;

// What became of the lines so far.
#[derive(Clone, Copy, Default)]
struct Tally {
    agree: u64,
    differ: u64,
    refused: u64,
    no_case: u64,
}

impl Tally {
    // A line of the text, which counts from 1.
    fn take_line(&mut self, rt: &HostRuntime, number: usize, line: &[u8]) -> anyhow::Result<()> {
        match read_case(rt.alloc(), line) {
            Ok(case) => self.take_case(rt, number, &case),
            Err(Unmade::Refused(NoCase)) => {
                println!(rt; "line {number}: no case")?;
                self.no_case = self.no_case.saturating_add(1);
                Ok(())
            }
            Err(Unmade::OutOfMemory) => bail!("no memory for a case"),
        }
    }

    fn take_case(&mut self, rt: &HostRuntime, number: usize, case: &Case) -> anyhow::Result<()> {
        let expected = Rows(&case.expected);
        match judge(rt.alloc(), case)? {
            Verdict::Agrees => self.agree = self.agree.saturating_add(1),
            Verdict::Differs(written) => {
                let got = Rows(&written);
                println!(rt; "line {number}: expected {expected}; got {got}")?;
                self.differ = self.differ.saturating_add(1);
            }
            Verdict::Refused(fault) => {
                let refusal = fault.number();
                println!(rt; "line {number}: expected {expected}; refused {refusal}")?;
                self.refused = self.refused.saturating_add(1);
            }
        }
        Ok(())
    }
}

impl fmt::Display for Tally {
    fn fmt<W: fmt::Write>(&self, f: &mut fmt::Formatter<W>) -> fmt::Result {
        let Tally {
            agree,
            differ,
            refused,
            no_case,
        } = *self;
        let cases = agree.saturating_add(differ).saturating_add(refused);
        write!(
            f,
            "cases: {cases}, agree: {agree}, differ: {differ}, refused: {refused}, no case: {no_case}"
        )
    }
}

// Prints each line of the text that is no case or does not agree, and how many there are.
pub fn run(rt: &HostRuntime, text: &[u8]) -> anyhow::Result<()> {
    let mut tally = Tally::default();
    for (before, line) in Lines(text).enumerate() {
        tally.take_line(rt, before.saturating_add(1), line)?;
    }
    println!(rt; "{tally}")?;
    Ok(())
}
