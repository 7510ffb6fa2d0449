// Reads a month file and prints an answer for each of its lines.
#![tactic(auto)]

use anyhow::anyhow;
use monthfile::output::run;
use std::io::{Read, Write};
use std::process::ExitCode;
use std::{env, fs};

const USAGE: &str = "usage: settle [FILE]

Reads a month file from FILE, or from standard input, and prints an answer for each line that has words:
its number, a colon, and
  ok ...                        what was worked out
  refused NUMBER LAYER: words   the rules refuse it
  error: words                  the line is not understood
The status is 0 if every line is understood, refused ones too, else 1.

One command a line; words are separated by spaces or tabs, and # starts a comment.
  spread TOTAL flat N           TOTAL over N equal weights
  spread TOTAL list W W ...     over these weights
  spread TOTAL line G A B       over the line from reading A to reading B, G hours between them
";

// Prints the answers to a month file.
fn settle(rt: &HostRuntime, file: &[u8]) -> anyhow::Result<()> {
    let output = run(rt.alloc(), file)?;
    rt.stdout().write_all(output.text.as_bytes())?;
    if output.mistaken {
        return Err(anyhow!("a line is not understood"));
    }
    Ok(())
}

fn settle_file(rt: &HostRuntime, path: &str) -> anyhow::Result<()> {
    match fs::read(rt, path) {
        Ok(file) => settle(rt, &file),
        Err(error) => Err(anyhow!(format!(in rt.alloc(); "cannot read {path}: {error}")?)),
    }
}

fn settle_input(rt: &HostRuntime) -> anyhow::Result<()> {
    let mut file = Vec::new(rt.alloc());
    rt.stdin().read_to_end(&mut file)?;
    settle(rt, &file)
}

fn start(rt: &HostRuntime) -> anyhow::Result<()> {
    let mut words = env::args(rt)?.skip(1);
    let Some(word) = words.next() else {
        return settle_input(rt);
    };
    if words.next().is_some() {
        return Err(anyhow!("more than one file (settle --help tells how)"));
    }
    if word.as_str() == "--help" {
        rt.stdout().write_all(USAGE.as_bytes())?;
        return Ok(());
    }
    settle_file(rt, &word)
}

fn main(rt: HostRuntime) -> anyhow::Result<ExitCode> {
    let Err(error) = start(&rt) else {
        return Ok(ExitCode::SUCCESS);
    };
    eprintln!(rt; "settle: {error}")?;
    Ok(ExitCode::FAILURE)
}
