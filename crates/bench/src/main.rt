//! Conducts scenarios: each file that the command line names, where `-` is the standard input, or the standard input where it names none.
//!
//! A scenario has one step on a line. The transcript has a row for each line, with what it answered, and then the totals.
//! The status is 0 where every line is good, and 1 where one is bad; all other lines are made nevertheless.
#![tactic(auto)]

use anyhow::anyhow;
use bench_run::conduct::conduct;
use std::alloc::{AllocError, Global};
use std::io::Read;
use std::process::ExitCode;
use std::{env, fs};

// One line as text, without its end. One that is no UTF-8 keeps its place, as a line that cannot be read.
fn line_text(heap: Global, octets: &[u8]) -> Result<String, AllocError> {
    let text = std::str::from_utf8(octets).unwrap_or("(not UTF-8)");
    let text = text.strip_suffix('\n').unwrap_or(text);
    String::from_str(heap, text.strip_suffix('\r').unwrap_or(text))
}

// The lines of a text. Each ends with a newline; the last one may have none.
fn lines_of(heap: Global, octets: &[u8]) -> Result<Vec<String>, AllocError> {
    octets
        .split_inclusive(|octet| *octet == b'\n')
        .map(|line| line_text(heap, line))
        .try_collect(heap)
}

fn octets_of(rt: &HostRuntime, name: &str) -> anyhow::Result<Vec<u8>> {
    if name == "-" {
        let mut octets = Vec::new(rt.alloc());
        rt.stdin().read_to_end(&mut octets)?;
        return Ok(octets);
    }
    Ok(fs::read(rt, name)?)
}

// Prints the transcript of a scenario, and answers how many of its lines are bad.
fn show(rt: &HostRuntime, name: &str) -> anyhow::Result<usize> {
    let heap = rt.alloc();
    let octets = octets_of(rt, name)?;
    let lines = lines_of(heap, octets.as_slice())?;
    let reply = conduct(heap, lines.as_slice())?;
    rt.print(reply.text.as_str())?;
    Ok(reply.bad_lines)
}

fn names_given(rt: &HostRuntime) -> anyhow::Result<Vec<String>> {
    let mut names: Vec<String> = env::args(rt)?.skip(1).collect(rt.alloc())?;
    if names.is_empty() {
        names.push(String::from_str(rt.alloc(), "-")?)?;
    }
    Ok(names)
}

fn run(rt: &HostRuntime) -> anyhow::Result<()> {
    let names = names_given(rt)?;
    let mut bad_lines = 0usize;
    for name in names.iter() {
        if names.len() > 1 {
            println!(rt; "== {name}")?;
        }
        bad_lines = bad_lines.saturating_add(show(rt, name.as_str())?);
    }
    if bad_lines > 0 {
        return Err(anyhow!("bad lines: {bad_lines}"));
    }
    Ok(())
}

// the same in both programs: each is a crate of its own
fn main(rt: HostRuntime) -> ExitCode {
    match run(&rt) {
        Ok(()) => ExitCode::SUCCESS,
        Err(fault) => {
            let _ = eprintln!(rt; "{fault}");
            ExitCode::FAILURE
        }
    }
}
