//! What a lock is for, and a request for one.
ghost use Rattle.std.specs.Prelude.{◌≡◌, ◌&&◌, ◌||◌, not, IfOk};
ghost use Rattle.web_locks.specs.Lock.{is_exclusive};
ghost use Rattle.web_locks.specs.Requests.{lock_row, lock_state};
ghost use Rattle.web_locks.specs.Plain.{plain_row};

use crate::{LockMode, LockRow, LockState};
use agent_base::{Label, NoMemory};
use std::alloc::Global;
use std::marker::Model;
use std::rc::Rc;

/// A name under a key: what requests queue for.
#[derive(Debug, Drop, PartialEq, Eq, PartialOrd, Ord)]
pub(crate) struct Resource<K> {
    pub(crate) key: K,
    pub(crate) name: String,
}

/// A number of a document.
#[derive(Clone, Copy, Debug, PartialEq, Eq, PartialOrd, Ord)]
pub(crate) struct OwnId {
    pub(crate) owner: Label,
    pub(crate) id: u32,
}

/// A request, as the table keeps it.
#[derive(Debug, Drop)]
pub(crate) struct Request<K: Drop> {
    pub(crate) owner: Label,
    pub(crate) id: u32,
    pub(crate) resource: Rc<Resource<K>>,
    pub(crate) mode: LockMode,
    pub(crate) held: bool,
    pub(crate) stole: bool,
}

impl<K: Drop> Model for Request<K> {
    ghost use Rattle.std.specs.Prelude.{string_bytes};
    ghost use Rattle.std.specs.Rc.{rc_value};
    ghost use Rattle.web_locks.specs.Lock.{PlainLock};

    ghost Value = { PlainLock K };

    ghost view = { λ r. record {
      owner = r.owner;
      id = r.id;
      key = (rc_value r.resource).key;
      name = string_bytes (rc_value r.resource).name;
      mode = r.mode;
      held = r.held;
      stole = r.stole;
    } };
}

impl<K: Drop> Request<K> {
    /// Whose request it is, by its number.
    pub(crate) fn own_id(&self) -> OwnId
        ensures own { result ≡ record { owner = self.now.owner; id = self.now.id } }
    {
        OwnId {
            owner: self.owner,
            id: self.id,
        }
    }

    /// The request holds its lock from now on, or waits for it.
    pub(crate) fn set_held(&mut self, held: bool)
        ensures held { self.new ≡ record self.old { held = held } }
    {
        self.held = held;
    }

    /// Whether a lock fits beside this request, which is the first: it waits, or both are shared.
    pub(crate) fn admits(&self, mode: LockMode) -> bool
        ensures admits { result ≡ (not self.now.held
            || not (is_exclusive mode) && not (is_exclusive self.now.mode)) }
    {
        !self.held || is_shared(mode) && is_shared(self.mode)
    }

    /// The request as a document sees it.
    pub(crate) fn row(&self) -> Result<LockRow, NoMemory>
        ensures row { IfOk result (λ row. plain_row row ≡ lock_row self.now) }
    {
        Ok(LockRow {
            id: self.id,
            name: self.resource.name.clone()?,
            state: lock_state(self.held),
        })
    }
}

// Whether a mode is shared.
fn is_shared(mode: LockMode) -> bool
    ensures shared { result ≡ not (is_exclusive mode) }
{
    match mode {
        LockMode::Exclusive => false,
        LockMode::Shared => true,
    }
}

// The state of a request that is held or not.
fn lock_state(held: bool) -> LockState
    ensures state { result ≡ lock_state held }
{
    if held {
        LockState::Held
    } else {
        LockState::Waiting
    }
}
