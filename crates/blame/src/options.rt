use crate::asked::one_based;
use anyhow::{anyhow, bail};
use change::refusal::Told;
use ranges::blame_ranges::BlameRanges;
use std::env::Args;

const TOO_MANY: &str = "too many arguments; `blame help` says what each command takes";

// What stands behind a command: the lines asked for, and the file to read.
#[derive(Drop)]
pub struct Options {
    pub ranges: BlameRanges,
    pub path: Option<String>,
}

// Reads `-L FIRST,LAST`, any number of times, and the name of a file.
pub fn read(rt: &HostRuntime, args: Args) -> anyhow::Result<Options> {
    let mut ranges = BlameRanges::whole_file(rt.alloc())?;
    let mut args = args;
    let mut path = None;
    while let Some(arg) = args.next() {
        if arg.as_str() == "-L" {
            let Some(lines) = args.next() else {
                bail!("-L takes lines, as FIRST,LAST");
            };
            ask(&mut ranges, lines.as_str())?;
        } else if let Some(lines) = arg.as_str().strip_prefix("-L") {
            ask(&mut ranges, lines)?;
        } else if path.is_some() {
            bail!(TOO_MANY);
        } else {
            path = Some(arg);
        }
    }
    Ok(Options { ranges, path })
}

// Refuses more than one argument, behind a command that has no options.
pub fn at_most_one(args: Args) -> anyhow::Result<()> {
    let mut args = args;
    let _argument = args.next();
    if args.next().is_some() {
        bail!(TOO_MANY);
    }
    Ok(())
}

// Adds the lines to those asked for, or says why not.
fn ask(ranges: &mut BlameRanges, text: &str) -> anyhow::Result<()> {
    let Some(lines) = one_based(text.as_bytes()) else {
        bail!("-L takes lines, as FIRST,LAST, and not `{text}`");
    };
    ranges
        .add_one_based_inclusive_range(lines)
        .map_err(|fault| anyhow!("-L {text}: refused: {}", Told(fault)))
}
