//! timing [--times N] [--answers | --next] [FILE]: how long queries take in the process, over the log that standard input enters or over a
//! sealed index.
#![tactic(auto)]

mod bench;
mod input;
mod options;
mod run;
mod spelling;

use anyhow::{Context, anyhow};
use console::end;
use options::Options;
use run::{time_index, time_log};
use std::process::ExitCode;
use std::{env, fs};

fn time_input(rt: &HostRuntime) -> anyhow::Result<()> {
    let mut args = Vec::new(rt.alloc());
    for arg in env::args(rt)?.skip(1) {
        args.push(arg)?;
    }
    let (options, path) = Options::read(&args).context(
        "say timing [--times N] [--answers | --next] [FILE]",
    )?;
    let Some(path) = path else {
        time_log(rt.alloc(), rt, options, &mut rt.stdin(), &mut rt.stdout())?;
        return Ok(());
    };
    let bytes = fs::read(rt, path).context(format_args!("cannot read {path}"))?;
    let opened = time_index(
        rt.alloc(),
        rt,
        options,
        bytes.as_slice(),
        &mut rt.stdin(),
        &mut rt.stdout(),
    )?;
    opened.map_err(|why| anyhow!("the file is no index: {why}"))
}

fn main(rt: HostRuntime) -> ExitCode {
    end(&rt, "timing", time_input(&rt))
}
