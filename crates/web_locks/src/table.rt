//! The table of the requests for locks.
ghost use Rattle.std.specs.Prelude.{◌≡◌, ◌↔◌, IsErr, ◌&&◌, ◌||◌, not, [], true, false, Err, IfOk, OnErr, OnOk, find, map, option_map, string_bytes};
ghost use Rattle.std.specs.List.{IsDistinct};
ghost use Rattle.web_locks.specs.declared.request.LockFault.TheVariants as fault;
ghost use Rattle.web_locks.specs.Forms.{same_request};
ghost use Rattle.web_locks.specs.Lock.{has_request, is_exclusive, is_owned};
ghost use Rattle.web_locks.specs.Owners.{IsNextOwner};
ghost use Rattle.web_locks.specs.Plain.{plain_row};
ghost use Rattle.web_locks.specs.Requests.{asked, is_reserved, is_unsupported, released, request_answer, requested, lock_rows, without_owner};

use crate::requests::Requests;
use crate::resource::{Request, Resource};
use crate::{LockAnswer, LockFault, LockMode, LockOptions, LockRow, NoLock};
use agent_base::{Label, NoMemory};
use std::alloc::Global;
use std::marker::Model;
use std::rc::Rc;

/// The requests for locks of one agent: which are held and which wait, by key and name.
///
/// A key is that of a lock manager, as a storage key. A document names each of its requests by a
/// number of its own.
#[derive(Debug, Drop)]
pub struct LockTable<K: Ord + Drop> {
    requests: Requests<K>,
    alloc: Global,
}

impl<K: Ord + Drop> Model for LockTable<K> {
    ghost use Rattle.std.specs.Prelude.{List};
    ghost use Rattle.web_locks.specs.Lock.{PlainLock};
    ghost use Rattle.web_locks.specs.Index.{locks_of};
    ghost use Rattle.web_locks.specs.Kept.{IsIndexed};
    ghost use Rattle.web_locks.specs.Forms.{IsLockTable};

    ghost Value = { List (PlainLock K) };

    ghost view = { λ t. locks_of t.requests.rows };

    ghost invariant = { λ t. IsIndexed K.cmp t.requests
        × IsLockTable K.cmp (locks_of t.requests.rows) };
}

impl<K: Ord + Drop> LockTable<K> {
    /// A table without requests.
    pub fn new(alloc: Global) -> LockTable<K>
        ensures empty { result ≡ [] }
    {
        LockTable {
            requests: Requests::new(alloc),
            alloc,
        }
    }

    /// Asks for a lock: it is held, or waits, or was to be held at once and is not.
    ///
    /// A steal takes the lock from all that hold it, and holds it before any that waits. Want of
    /// memory leaves the table as it was.
    pub fn request(
        &mut self,
        key: K,
        name: String,
        owner: Label,
        id: u32,
        options: LockOptions,
    ) -> Result<LockAnswer, LockFault>
        ensures requested { let lock = asked owner id key (string_bytes name) options in
            OnOk result (self.new ≡ requested K.cmp options.if_available lock self.old) }
        ensures answer { let lock = asked owner id key (string_bytes name) options in
            IfOk result (λ answer. answer
            ≡ request_answer K.cmp options.if_available lock self.old) }
        ensures unchanged { OnErr result (self.new ≡ self.old) }
        ensures not_supported { let lock = asked owner id key (string_bytes name) options in
            (result ≡ Err fault.NotSupported)
            ↔ (is_unsupported options.if_available lock ≡ true) }
        ensures id_used { let lock = asked owner id key (string_bytes name) options in
            (result ≡ Err fault.IdUsed)
            ↔ ((is_unsupported options.if_available lock ≡ false)
            × (has_request owner id self.old ≡ true)) }
    {
        if is_unsupported(&name, options) {
            return Err(LockFault::NotSupported);
        }
        if self.requests.find(owner, id).is_some() {
            return Err(LockFault::IdUsed);
        }
        let Ok(resource) = Rc::new(self.alloc, Resource { key, name }) else {
            return Err(LockFault::NoMemory);
        };
        let request = Request {
            owner,
            id,
            resource,
            mode: options.mode,
            held: false,
            stole: options.steal,
        };
        match self.requests.request(request, options.if_available) {
            Ok(answer) => Ok(answer),
            Err(NoMemory) => Err(LockFault::NoMemory),
        }
    }

    /// Releases the lock of a request, or takes back a request that waits. The first that waits
    /// then is given its lock, and so on. It takes no memory.
    pub fn release(&mut self, owner: Label, id: u32) -> Result<(), NoLock>
        ensures released { self.new ≡ released K.cmp owner id self.old }
        ensures unchanged { OnErr result (self.new ≡ self.old) }
        ensures no_lock { IsErr result ↔ (has_request owner id self.old ≡ false) }
    {
        self.requests.release(owner, id)
    }

    /// Releases all requests of a document that goes, in their order. It takes no memory.
    pub fn drop_owner(&mut self, owner: Label)
        ensures dropped { self.new ≡ without_owner K.cmp owner self.old }
    {
        while let Some(id) = self.first_id(owner) {
            let _ = self.release(owner, id);
        }
    }

    // The number that a document gave its first request.
    fn first_id(&self, owner: Label) -> Option<u32>
        ensures first { result ≡ option_map (λ lock. lock.id) (find (is_owned owner) self.now) }
        ensures distinct { IsDistinct same_request self.now }
    {
        self.requests.first_id(owner)
    }

    /// The first document behind this one that has a request, or the first of all, in the order of
    /// tabs and frames.
    pub fn next_owner(&self, after: Option<Label>) -> Option<Label>
        ensures next { IsNextOwner after result self.now }
    {
        self.requests.next_owner(after)
    }

    /// The requests of a document, in the order in which they were made.
    pub fn rows(&self, alloc: Global, owner: Label) -> Result<Vec<LockRow>, NoMemory>
        ensures rows { IfOk result (λ rows. map plain_row rows.items
            ≡ lock_rows owner self.now) }
    {
        self.requests.listed(alloc, owner)
    }
}

// Whether a request is not supported: for its name, or as a steal that is shared or does not wait.
fn is_unsupported(name: &str, options: LockOptions) -> bool
    ensures unsupported { result ≡ (is_reserved name.now
        || options.steal && (options.if_available || not (is_exclusive options.mode))) }
{
    name.as_bytes().first() == Some(&b'-')
        || options.steal && (options.if_available || options.mode == LockMode::Shared)
}
