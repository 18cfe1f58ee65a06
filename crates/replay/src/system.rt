//! The program: words, files and standard streams are handed to [`run`](crate::run).

use crate::{Status, run, tell};
use agent_base::{Failed, ReadSource, WriteSink};
use hosts::{HeldStreams, RealHost, hold_streams};
use std::fs::File;
use std::process::ExitCode;
use std::{env, io};

/// Runs the words of the command line over the system's files and standard streams, and answers the
/// number of the status.
pub fn program(rt: HostRuntime) -> ExitCode {
    let mut err = WriteSink::new(rt.stderr());
    let (_held, words) = match begin(&rt) {
        Ok(begun) => begun,
        Err(status) => {
            tell(&mut err, &status);
            return ExitCode::from(status.code());
        }
    };
    let mut host = RealHost::new(rt);
    let mut script = ReadSource::new(rt.stdin());
    let mut out = WriteSink::new(rt.stdout());
    let status = run(
        rt.alloc(),
        &words,
        &mut host,
        &mut script,
        &mut out,
        &mut err,
    );
    ExitCode::from(status.code())
}

/// What stands in the place of standard streams that were closed, before any other file is opened,
/// and the words of the command line.
pub fn begin(rt: &HostRuntime) -> Result<(HeldStreams<File>, Vec<String>), Status> {
    match hold_streams(rt) {
        Ok(held) => Ok((held, words_of(rt)?)),
        Err(Failed) => Err(Status::Read),
    }
}

// The words of the command line, without the program's name. Words that are no UTF-8 are no
// command.
fn words_of(rt: &HostRuntime) -> Result<Vec<String>, Status> {
    let args = match env::args(rt) {
        Ok(args) => args,
        Err(why) if why.kind() == io::ErrorKind::InvalidData => return Err(Status::Usage),
        Err(_) => return Err(Status::Memory),
    };
    match args.skip(1).collect(rt.alloc()) {
        Ok(words) => Ok(words),
        Err(_) => Err(Status::Memory),
    }
}
