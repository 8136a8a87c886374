// What each program does: it reads a file or its standard input, and ends with a
// status, and a message where it failed.

#![tactic(auto)]

ghost use Rattle.std.specs.Prelude.{◌≡◌, is_ok, cond, IfOk, OnOk, IfSome};
ghost use Rattle.std.specs.Io.KnownBytes.{IsAtEnd};
ghost use Rattle.std.specs.Process.{exit_status};

use anyhow::anyhow;
use std::alloc::Global;
use std::fs;
use std::io::Read;
use std::process::ExitCode;

// All bytes that are left of the input.
pub fn all_bytes<R: Read>(heap: Global, input: &mut R) -> anyhow::Result<Vec<u8>>
    ensures bytes { IfOk result (λ v. IfSome (R.Read.remaining input.old) (λ left. v.items ≡ left)) }
    ensures end { OnOk result (IsAtEnd (R.Read.remaining input.new)) }
{
    let mut bytes = Vec::new(heap);
    input.read_to_end(&mut bytes)?;
    Ok(bytes)
}

// All bytes of the file, or of standard input where none is named. (No clause: the library
// has no words for what a file holds.)
pub fn read(rt: &HostRuntime, path: Option<String>) -> anyhow::Result<Vec<u8>> {
    match path {
        Some(path) => fs::read(rt, path.as_str()).map_err(|error| anyhow!("{path}: {error}")),
        None => all_bytes(rt.alloc(), &mut rt.stdin()),
    }
}

// The status of a program that came to this, and its message on standard error.
pub fn end(rt: &HostRuntime, program: &str, outcome: anyhow::Result<()>) -> ExitCode
    ensures { exit_status result ≡ cond (is_ok outcome) 0 1 }
{
    match outcome {
        Ok(()) => ExitCode::SUCCESS,
        Err(error) => {
            let _ = eprintln!(rt; "{program}: {error}");
            ExitCode::FAILURE
        }
    }
}

#[cfg(test)]
mod tests;
