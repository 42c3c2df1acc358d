//! How a program ends.
ghost use Rattle.std.specs.Prelude.{◌≡◌, OnOk, OnErr};
ghost use Rattle.std.specs.Process.{exit_status};

use std::process::ExitCode;

/// Ends with success, or tells the error with its causes on standard error and ends with status 1.
pub fn end(rt: &HostRuntime, program: &str, outcome: anyhow::Result<()>) -> ExitCode
    ensures success { OnOk outcome (exit_status result ≡ 0) }
    ensures failure { OnErr outcome (exit_status result ≡ 1) }
{
    match outcome {
        Ok(()) => ExitCode::SUCCESS,
        Err(e) => {
            let _ = eprintln!(rt; "{program}: {e:#}");
            ExitCode::FAILURE
        }
    }
}
