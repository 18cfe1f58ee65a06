//! A file in memory as a system may have it: a sync that fails forgets what it did not write.
ghost use Rattle.std.specs.Prelude.{◌≡◌, ◌+◌, ◌≤◌};
ghost use Rattle.agent_base.specs.Counts.{next_count};

use crate::part_file::put_over;
use agent_base::Failed;
use disk_model::RawFile;
use std::alloc::Global;

/// A read returns the last bytes that were written. What a sync brought to the medium is there after
/// a cut. It tells its count of faults and nothing else, as a file of the system.
#[derive(Debug, Drop)]
pub struct ForgetfulFile {
    cache: Vec<u8>,
    medium: Vec<u8>,
    written: Vec<(usize, usize)>,
    fails: u64,
    syncs: u64,
    faults: u64,
}

impl ForgetfulFile {
    /// An empty file. Syncs are counted from 1 on, and the one of the number `fails` fails.
    pub fn new(alloc: Global, fails: u64) -> ForgetfulFile {
        ForgetfulFile {
            cache: Vec::new(alloc),
            medium: Vec::new(alloc),
            written: Vec::new(alloc),
            fails,
            syncs: 0,
            faults: 0,
        }
    }

    /// What is there after a cut.
    pub fn medium(&self) -> &[u8] {
        &self.medium
    }

    /// Whether the sync that is to fail was made.
    pub fn has_failed(&self) -> bool {
        self.fails <= self.syncs
    }

    // A call that failed.
    fn fault(&mut self) -> Failed
        ensures later { self.old.faults ≤ self.new.faults }
        ensures one { self.new.faults ≤ self.old.faults + 1 }
        ensures counted { self.new.faults ≡ next_count self.old.faults }
    {
        self.faults = self.faults.saturating_add(1);
        Failed
    }

    // Puts each range that was written on the medium: whether there was memory for it.
    fn bring_over(&mut self) -> bool
        ensures { self.new.faults ≡ self.old.faults }
    {
        for (at, end) in &self.written {
            let Some(piece) = self.cache.get(*at..*end) else {
                return false;
            };
            let Ok(()) = put_over(&mut self.medium, *at, piece) else {
                return false;
            };
        }
        true
    }
}

impl RawFile for ForgetfulFile {
    ghost use Rattle.disk_model.specs.TellsNothing.{untold, untold_lawful, untold_fits};

    ghost view = { λ f. untold f.faults };

    ghost lawful = { λ f. untold_lawful f.faults };

    ghost fits = { λ f c is. untold_fits f.faults c is };

    fn len(&mut self) -> Result<u64, Failed> {
        Ok(self.cache.len() as u64)
    }

    fn read_some(&mut self, at: u64, into: &mut [u8]) -> Result<usize, Failed> {
        let at = at as usize;
        if at >= self.cache.len() {
            return Err(self.fault());
        }
        let n = into.len().min(self.cache.len() - at);
        into[..n].copy_from_slice(&self.cache[at..at + n]);
        Ok(n)
    }

    fn write_some(&mut self, at: u64, bytes: &[u8]) -> Result<usize, Failed> {
        let at = at as usize;
        let end = at.saturating_add(bytes.len());
        if put_over(&mut self.cache, at, bytes).is_err() || self.written.push((at, end)).is_err() {
            return Err(self.fault());
        }
        Ok(bytes.len())
    }

    fn sync(&mut self) -> Result<(), Failed> {
        self.syncs = self.syncs.saturating_add(1);
        let is_over = self.syncs == self.fails || self.bring_over();
        self.written.clear();
        if self.syncs == self.fails || !is_over {
            return Err(self.fault());
        }
        Ok(())
    }

    fn restart(&mut self) -> Result<(), Failed> {
        Ok(())
    }
}
