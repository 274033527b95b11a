//! Answers requests and scripts on standard input by the model and the policy in two files, and shows models and policies.
#![tactic(auto)]

use cli_edge::{exit_code, run_program};
use std::process::ExitCode;

fn main(rt: HostRuntime) -> ExitCode {
    exit_code(run_program(&rt, &rt))
}
