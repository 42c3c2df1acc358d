//! seal FILE: enters a shift's log from standard input, then writes it to FILE as a sealed index.
#![tactic(auto)]

mod file;
mod law;
mod place;
mod sealing;
mod shift;

use anyhow::{anyhow, bail};
use console::end;
use file::Target;
use sealing::seal_shift;
use std::env;
use std::process::ExitCode;

// The only argument.
fn file_named(rt: &HostRuntime) -> anyhow::Result<String> {
    let mut names = env::args(rt)?.skip(1);
    match (names.next(), names.next()) {
        (Some(name), None) => Ok(name),
        _ => bail!("say where to write the index: seal FILE"),
    }
}

fn seal_to_file(rt: &HostRuntime) -> anyhow::Result<()> {
    let path = file_named(rt)?;
    let mut place = Target::at(rt, path.as_str()).map_err(|e| anyhow!("cannot write {path}: {e}"))?;
    let put = seal_shift(rt.alloc(), &mut rt.stdin(), &mut rt.stdout(), &mut place)?;
    put.map_err(|e| anyhow!("cannot write {path}: {e}"))
}

// Stays: a line each; how a program ends is in `ending`.
fn main(rt: HostRuntime) -> ExitCode {
    end(&rt, "seal", seal_to_file(&rt))
}
