//! Locks as the standard has them: a list of those that are held, and a queue of requests.
use agent_base::Label;
use std::alloc::Global;
use std::test::Fail;
use web_locks::{LockAnswer, LockMode, LockOptions, LockRow, LockState};

// A lock or a request for one. The request was made as so many before it.
#[derive(Clone, Copy, Debug, PartialEq, Eq)]
struct Entry {
    made: u32,
    owner: Label,
    id: u32,
    key: u32,
    name: &'static str,
    mode: LockMode,
}

impl Entry {
    fn is_beside(&self, other: &Entry) -> bool {
        self.key == other.key && self.name == other.name
    }

    fn is_of(&self, owner: Label, id: u32) -> bool {
        self.owner == owner && self.id == id
    }
}

/// The held locks of all names, and their queues as one.
#[derive(Debug, Drop)]
pub struct Lists {
    held: Vec<Entry>,
    queue: Vec<Entry>,
    made: u32,
    alloc: Global,
}

impl Lists {
    pub fn new(alloc: Global) -> Lists {
        Lists {
            held: Vec::new(alloc),
            queue: Vec::new(alloc),
            made: 0,
            alloc,
        }
    }

    /// Whether a document uses a number.
    pub fn has(&self, owner: Label, id: u32) -> bool {
        self.held.iter().any(|entry| entry.is_of(owner, id))
            || self.queue.iter().any(|entry| entry.is_of(owner, id))
    }

    /// "Request a lock", of a request that is supported and whose number is free.
    pub fn request(
        &mut self,
        key: u32,
        name: &'static str,
        owner: Label,
        id: u32,
        options: LockOptions,
    ) -> Result<LockAnswer, Fail> {
        self.made = self.made.saturating_add(1);
        let request = Entry {
            made: self.made,
            owner,
            id,
            key,
            name,
            mode: options.mode,
        };
        if options.steal {
            self.held.retain(|lock| !lock.is_beside(&request));
            self.prepend(request)?;
        } else if options.if_available && !self.is_grantable(&request) {
            return Ok(LockAnswer::Unavailable);
        } else {
            self.queue.push(request)?;
        }
        self.process(&request)?;
        Ok(self.answer(&request))
    }

    // Puts a request before all others.
    fn prepend(&mut self, request: Entry) -> Result<(), Fail> {
        let mut queue = Vec::new(self.alloc);
        queue.push(request)?;
        queue.extend_from_slice(&self.queue)?;
        self.queue = queue;
        Ok(())
    }

    // "Grantable", of a request behind all others: its queue is empty, and no lock that is held
    // excludes it.
    fn is_grantable(&self, request: &Entry) -> bool {
        !self.queue.iter().any(|other| other.is_beside(request)) && self.is_free(request)
    }

    // Whether no lock that is held excludes this request.
    fn is_free(&self, request: &Entry) -> bool {
        !self.held.iter().any(|lock| {
            lock.is_beside(request)
                && (request.mode == LockMode::Exclusive || lock.mode == LockMode::Exclusive)
        })
    }

    // "Process the lock request queue": for each request of the queue, stop at one that is not
    // grantable, else move it to those that are held.
    fn process(&mut self, of: &Entry) -> Result<(), Fail> {
        let mut rest = Vec::new(self.alloc);
        let mut stopped = false;
        let queue = self.queue.clone()?;
        for request in &queue {
            if request.is_beside(of) && !stopped && self.is_free(request) {
                self.held.push(*request)?;
            } else {
                stopped = stopped || request.is_beside(of);
                rest.push(*request)?;
            }
        }
        self.queue = rest;
        Ok(())
    }

    fn answer(&self, request: &Entry) -> LockAnswer {
        if self.held.iter().any(|lock| lock.made == request.made) {
            LockAnswer::Held
        } else {
            LockAnswer::Waiting
        }
    }

    // The lock or the request of a document's number.
    fn entry(&self, owner: Label, id: u32) -> Option<Entry> {
        let lock = self.held.iter().find(|entry| entry.is_of(owner, id));
        match lock {
            Some(lock) => Some(*lock),
            None => self
                .queue
                .iter()
                .find(|entry| entry.is_of(owner, id))
                .copied(),
        }
    }

    /// "Release a lock" or "abort the request", of a document's number.
    pub fn release(&mut self, owner: Label, id: u32) -> Result<bool, Fail> {
        let Some(entry) = self.entry(owner, id) else {
            return Ok(false);
        };
        self.held.retain(|lock| !lock.is_of(owner, id));
        self.queue.retain(|request| !request.is_of(owner, id));
        self.process(&entry)?;
        Ok(true)
    }

    /// "Termination of locks": all requests of a document are aborted, and all its locks released.
    pub fn terminate(&mut self, owner: Label) -> Result<(), Fail> {
        let held = self.held.clone()?;
        let queue = self.queue.clone()?;
        self.held.retain(|lock| lock.owner != owner);
        self.queue.retain(|request| request.owner != owner);
        for request in &queue {
            self.process(request)?;
        }
        for lock in &held {
            self.process(lock)?;
        }
        Ok(())
    }

    /// Whether a document has these requests, in the order in which they were made.
    pub fn shows(&self, owner: Label, rows: &[LockRow]) -> bool {
        let mut last = 0;
        for row in rows {
            match self.entry(owner, row.id) {
                Some(entry) if last < entry.made && self.is_shown(&entry, row) => {
                    last = entry.made;
                }
                _ => return false,
            }
        }
        rows.len() == self.count(owner)
    }

    fn is_shown(&self, entry: &Entry, row: &LockRow) -> bool {
        let is_held = self.held.iter().any(|lock| lock.made == entry.made);
        row.name.as_str() == entry.name && is_held == (row.state == LockState::Held)
    }

    /// The number of a document's requests.
    pub fn count(&self, owner: Label) -> usize {
        let held = self.held.iter().filter(|lock| lock.owner == owner).count();
        let waiting = self
            .queue
            .iter()
            .filter(|request| request.owner == owner)
            .count();
        held.saturating_add(waiting)
    }
}
