//! Answers one user's commands from standard input, under the usual quota. It is for machines with only standard input and output.
#![tactic(auto)]

ghost use Rattle.std.specs.Prelude.{◌≡◌, IfErr, OnOk};
ghost use Rattle.std.specs.Process.{exit_status};
ghost use Rattle.lj_program.specs.Outcomes.{status_of};

use lj_program::{ProgramFault, run};
use lj_quota::Quota;
use std::io;
use std::process::ExitCode;

fn main(rt: HostRuntime) -> ExitCode {
    exit_code(run(rt.alloc(), Quota::USUAL, rt.reader(), io::writer(&rt)))
}

/// Returns the exit status of a run: 0, 1 where it could not read or write, or 3 without memory.
fn exit_code(outcome: Result<(), ProgramFault<'_>>) -> ExitCode
    ensures done { OnOk outcome.entry (exit_status result ≡ 0) }
    ensures fault { IfErr outcome.entry (λ fault. exit_status result ≡ status_of fault) }
{
    match outcome {
        Ok(()) => ExitCode::SUCCESS,
        Err(fault) => ExitCode::from(fault.status()),
    }
}
