//! The program that shows what scripts give a site.
#![tactic(auto)]

use std::process::ExitCode;

fn main(rt: HostRuntime) -> ExitCode {
    show_commands::program(rt)
}
