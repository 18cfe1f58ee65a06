//! A file of the system, with a count of its calls that failed.
ghost use Rattle.std.specs.Prelude.{◌≡◌, ◌+◌, ◌≤◌};
ghost use Rattle.agent_base.specs.Counts.{next_count};

use crate::raw_file::RawFile;
use agent_base::Failed;
use std::fs::File;
use std::io::ErrorKind;
use std::os::unix::fs::FileExt;

/// An open file of the system. It tells nothing of its content.
///
/// What its calls do is believed: also that a fault is counted only where the system's call failed,
/// or read or wrote nothing.
#[derive(Debug, Drop)]
pub struct SystemFile {
    file: File,
    faults: u64,
}

impl SystemFile {
    /// This file, no call of which has failed yet.
    pub fn new(file: File) -> SystemFile
        ensures faults { result.faults ≡ 0 }
    {
        SystemFile { file, faults: 0 }
    }

    /// How many calls failed.
    pub fn faults(&self) -> u64
        ensures { result ≡ self.now.faults }
    {
        self.faults
    }

    // A call that failed.
    fn fault(&mut self) -> Failed
        ensures later { self.old.faults ≤ self.new.faults }
        ensures one { self.new.faults ≤ self.old.faults + 1 }
        ensures counted { self.new.faults ≡ next_count self.old.faults }
    {
        self.faults = self.faults.saturating_add(1);
        Failed
    }
}

impl RawFile for SystemFile {
    ghost use Rattle.disk_model.specs.TellsNothing.{untold, untold_lawful, untold_fits};

    ghost view = { λ f. untold f.faults };

    ghost lawful = { λ f. untold_lawful f.faults };

    ghost fits = { λ f c is. untold_fits f.faults c is };

    fn len(&mut self) -> Result<u64, Failed> {
        match self.file.metadata() {
            Ok(metadata) => Ok(metadata.len()),
            Err(_) => Err(self.fault()),
        }
    }

    // A call that a signal interrupts is made again. So does std where it syncs.
    fn read_some(&mut self, at: u64, into: &mut [u8]) -> Result<usize, Failed> {
        'tries: for _ in 0..u64::MAX {
            match self.file.read_at(into, at) {
                Ok(n) if n > 0 && n <= into.len() => return Ok(n),
                Err(error) if error.kind() == ErrorKind::Interrupted => {}
                _ => return Err(self.fault()),
            }
        }
        Err(self.fault())
    }

    fn write_some(&mut self, at: u64, bytes: &[u8]) -> Result<usize, Failed> {
        'tries: for _ in 0..u64::MAX {
            match self.file.write_at(bytes, at) {
                Ok(n) if n > 0 && n <= bytes.len() => return Ok(n),
                Err(error) if error.kind() == ErrorKind::Interrupted => {}
                _ => return Err(self.fault()),
            }
        }
        Err(self.fault())
    }

    fn sync(&mut self) -> Result<(), Failed> {
        match self.file.sync_all() {
            Ok(()) => Ok(()),
            Err(_) => Err(self.fault()),
        }
    }

    fn restart(&mut self) -> Result<(), Failed> {
        Ok(())
    }
}
