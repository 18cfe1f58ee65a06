//! Standard streams that were closed before the program began.

use agent_base::Failed;
use std::fs::{File, Files};

/// What stands in the place of closed standard streams, to be held for the whole run.
#[derive(Drop)]
pub struct HeldStreams<F> {
    first: F,
    second: F,
    third: F,
}

/// Keeps a file that is opened later from being taken for a standard stream.
///
/// A file that is opened gets the lowest number that is free, and the streams have 0, 1 and 2. So
/// the root folder is opened three times: no number of a stream that was closed is free any more,
/// and reads and writes of that stream fail.
pub fn hold_streams<R: Files>(files: &R) -> Result<HeldStreams<R::File>, Failed> {
    Ok(HeldStreams {
        first: folder(files)?,
        second: folder(files)?,
        third: folder(files)?,
    })
}

fn folder<R: Files>(files: &R) -> Result<R::File, Failed> {
    match File::open(files, "/") {
        Ok(folder) => Ok(folder),
        Err(_) => Err(Failed),
    }
}
