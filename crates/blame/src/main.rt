// Which lines of a plan each commit set, and which it kept.

#![tactic(auto)]

use anyhow::bail;
use std::env;
use std::process::ExitCode;

mod asked;
mod lists;
mod options;

const USAGE: &str = "\
usage: blame lists [-L FIRST,LAST].. [FILE]

lists   reads recorded change lists from FILE, or from standard input, and
        prints for each commit the lines that it set, and those that it kept
        with their place in the parent

-L FIRST,LAST   only lines FIRST to LAST of each commit's file, counted from
                one; may be given more than once
";

fn run(rt: &HostRuntime) -> anyhow::Result<()> {
    let mut args = env::args(rt)?;
    let _program = args.next();
    let Some(command) = args.next() else {
        bail!("no command given; `blame help` lists them");
    };
    // A table of commands would be no plainer: each is handed its own arguments.
    match command.as_str() {
        "lists" => {
            let options = options::read(rt, args)?;
            let text = program::read(rt, options.path)?;
            lists::run(rt, text.as_slice(), &options.ranges)
        }
        "help" | "--help" | "-h" => {
            options::at_most_one(args)?;
            print!(rt; "{USAGE}")?;
            Ok(())
        }
        _ => {
            options::at_most_one(args)?;
            bail!("unknown command; `blame help` lists them")
        }
    }
}

fn main(rt: HostRuntime) -> ExitCode {
    program::end(&rt, "blame", run(&rt))
}
