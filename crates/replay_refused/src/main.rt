//! The program, for a stored run that ends with a status other than 0.
#![tactic(auto)]

use std::process::ExitCode;

fn main(rt: HostRuntime) -> ExitCode {
    replay::program(rt)
}
