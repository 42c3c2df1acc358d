//! ask FILE: answers queries from standard input over a sealed index.
#![tactic(auto)]

mod answer;
mod law;
mod reading;

use answer::answer;
use anyhow::{anyhow, bail};
use console::end;
use std::process::ExitCode;
use std::{env, fs};

// The only argument.
fn file_named(rt: &HostRuntime) -> anyhow::Result<String> {
    let mut names = env::args(rt)?.skip(1);
    match (names.next(), names.next()) {
        (Some(name), None) => Ok(name),
        _ => bail!("say which index to read: ask FILE"),
    }
}

fn ask_file(rt: &HostRuntime) -> anyhow::Result<()> {
    let path = file_named(rt)?;
    let bytes = fs::read(rt, path.as_str()).map_err(|e| anyhow!("cannot read {path}: {e}"))?;
    let opened = answer(
        rt.alloc(),
        bytes.as_slice(),
        &mut rt.stdin(),
        &mut rt.stdout(),
    )?;
    opened.map_err(|_| anyhow!("the file is no index"))
}

// Stays: a line each; how a program ends is in `ending`.
fn main(rt: HostRuntime) -> ExitCode {
    end(&rt, "ask", ask_file(&rt))
}
