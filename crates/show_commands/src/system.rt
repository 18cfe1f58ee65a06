//! The program: words, files and standard streams are handed to [`run`](crate::run).

use crate::{run, tell_shown};
use agent_base::{ReadSource, WriteSink};
use hosts::RealHost;
use replay::begin;
use std::process::ExitCode;

/// Runs the words of the command line over the system's files and standard streams, and answers the
/// number of the status.
pub fn program(rt: HostRuntime) -> ExitCode {
    let mut err = WriteSink::new(rt.stderr());
    let (_held, words) = match begin(&rt) {
        Ok(begun) => begun,
        Err(status) => {
            tell_shown(&mut err, &status);
            return ExitCode::from(status.code());
        }
    };
    let mut host = RealHost::new(rt);
    let mut script = ReadSource::new(rt.stdin());
    let mut out = WriteSink::new(rt.stdout());
    let status = run(
        rt.alloc(),
        &words,
        &mut host,
        &mut script,
        &mut out,
        &mut err,
    );
    ExitCode::from(status.code())
}
