// Runs `process_changes` on recorded cases, and says which answers are not the recorded ones.

#![tactic(auto)]

use anyhow::bail;
use std::env;
use std::process::ExitCode;

mod case;
mod item;
mod judge;
mod report;
mod show;
#[cfg(test)]
mod tests;
mod token;

fn run(rt: &HostRuntime) -> anyhow::Result<()> {
    let mut args = env::args(rt)?;
    let _program = args.next();
    let path = args.next();
    if args.next().is_some() {
        bail!("too many arguments; usage: compare [FILE]");
    }
    let text = program::read(rt, path)?;
    report::run(rt, text.as_slice())
}

fn main(rt: HostRuntime) -> ExitCode {
    program::end(&rt, "compare", run(&rt))
}
