//! A file in memory whose calls read or write at most so many bytes, and one of which fails.
ghost use Rattle.std.specs.Prelude.{◌≡◌, ◌+◌, ◌≤◌};
ghost use Rattle.agent_base.specs.Counts.{next_count};

use agent_base::Failed;
use disk_model::RawFile;
use std::alloc::{AllocError, Global};
use std::test::Fail;

/// It tells its count of faults and nothing else, as a file of the system.
#[derive(Debug, Drop)]
pub struct PartFile {
    bytes: Vec<u8>,
    most: usize,
    fails: u64,
    calls: u64,
    faults: u64,
}

impl PartFile {
    /// A file of these bytes. Reads and writes are counted from 1 on, and the one of the number
    /// `fails` fails.
    pub fn new(alloc: Global, bytes: &[u8], most: usize, fails: u64) -> Result<PartFile, Fail> {
        Ok(PartFile {
            bytes: Vec::from_slice(alloc, bytes)?,
            most,
            fails,
            calls: 0,
            faults: 0,
        })
    }

    // One call more: whether it fails.
    fn call(&mut self) -> bool
        ensures faults { self.new.faults ≡ self.old.faults }
    {
        self.calls = self.calls.saturating_add(1);
        self.calls == self.fails
    }

    // A call that failed.
    fn fault(&mut self) -> Failed
        ensures later { self.old.faults ≤ self.new.faults }
        ensures one { self.new.faults ≤ self.old.faults + 1 }
        ensures counted { self.new.faults ≡ next_count self.old.faults }
    {
        self.faults = self.faults.saturating_add(1);
        Failed
    }
}

/// Puts bytes over those that are there, and past the end.
pub fn put_over(bytes: &mut Vec<u8>, at: usize, piece: &[u8]) -> Result<(), AllocError> {
    let end = at.checked_add(piece.len()).ok_or(AllocError)?;
    if bytes.len() < end {
        bytes.resize(end, 0)?;
    }
    bytes[at..end].copy_from_slice(piece);
    Ok(())
}

impl RawFile for PartFile {
    ghost use Rattle.disk_model.specs.TellsNothing.{untold, untold_lawful, untold_fits};

    ghost view = { λ f. untold f.faults };

    ghost lawful = { λ f. untold_lawful f.faults };

    ghost fits = { λ f c is. untold_fits f.faults c is };

    fn len(&mut self) -> Result<u64, Failed> {
        Ok(self.bytes.len() as u64)
    }

    fn read_some(&mut self, at: u64, into: &mut [u8]) -> Result<usize, Failed> {
        let at = at as usize;
        if self.call() || at >= self.bytes.len() || self.most == 0 {
            return Err(self.fault());
        }
        let n = into.len().min(self.most).min(self.bytes.len() - at);
        into[..n].copy_from_slice(&self.bytes[at..at + n]);
        Ok(n)
    }

    fn write_some(&mut self, at: u64, bytes: &[u8]) -> Result<usize, Failed> {
        if self.call() || self.most == 0 {
            return Err(self.fault());
        }
        let n = bytes.len().min(self.most);
        let Ok(()) = put_over(&mut self.bytes, at as usize, &bytes[..n]) else {
            return Err(self.fault());
        };
        Ok(n)
    }

    fn sync(&mut self) -> Result<(), Failed> {
        Ok(())
    }

    fn restart(&mut self) -> Result<(), Failed> {
        Ok(())
    }
}
