//! Prints keystream octets of a cipher, and a message covered with them and uncovered again.
//!
//! The words of the command line, or where it has none those of the standard input, make a request, as `cipher=grain128 key=..`.
#![tactic(auto)]

use keystreams::replies::reply_to;
use std::process::ExitCode;
use std::{env, io};
use texts::words::split_words;

// The words of the command line, or where it has none those of the standard input.
fn given_words(rt: &HostRuntime) -> anyhow::Result<Vec<String>> {
    let heap = rt.alloc();
    let words: Vec<String> = env::args(rt)?.skip(1).collect(heap)?;
    if words.is_empty() {
        let text = io::read_to_string(heap, rt.stdin())?;
        return Ok(split_words(heap, text.as_str())?);
    }
    Ok(words)
}

fn run(rt: &HostRuntime) -> anyhow::Result<()> {
    let words = given_words(rt)?;
    let text = reply_to(rt.alloc(), words.as_slice())?;
    print!(rt; "{text}")?;
    Ok(())
}

// the same in both programs: each is a crate of its own
fn main(rt: HostRuntime) -> ExitCode {
    match run(&rt) {
        Ok(()) => ExitCode::SUCCESS,
        Err(fault) => {
            let _ = eprintln!(rt; "{fault}");
            ExitCode::FAILURE
        }
    }
}
