//! The requests with what finds them.
ghost use Rattle.std.specs.Prelude.{◌≡◌, ◌++◌, ◌∷◌, [], true, false, not, ◌&&◌, None, Some, IfOk, OnOk, OnErr, is_err, filter, find, map, option_copied, option_map, if◌then◌else◌};
ghost use Rattle.std.specs.List.{AllByRecursion, list_any};
ghost use Rattle.std.specs.List.Sorted.{IsStrictlySortedBy};
ghost use Rattle.std.specs.Map.{keys_of};
ghost use Rattle.std.specs.Ordering.{nat_cmp};
ghost use Rattle.web_locks.specs.declared.request.LockAnswer.TheVariants as reply;
ghost use Rattle.web_locks.specs.Forms.{IsOpen, IsLockTable, is_plain};
ghost use Rattle.web_locks.specs.Lock.{PlainLock, has_request, is_request_of, is_owned};
ghost use Rattle.web_locks.specs.Index.{AreTold, AreToldBut, IsNoted, KeepsBut, held_row, is_for, line_at, locks_of, mode_at, numbers_where, row_at, stole_it, without_row};
ghost use Rattle.web_locks.specs.Kept.{rows_at, HasThief, IsIndexed, held_number, holder, next_given, processed_at, without_held};
ghost use Rattle.web_locks.specs.Owners.{IsNextOwner, label_order};
ghost use Rattle.key_map.specs.Entries.{next_key};
ghost use Rattle.web_locks.specs.Numbers.{first_after};
ghost use Rattle.web_locks.specs.Queue.{fits, held_modes, is_grantable};
ghost use Rattle.web_locks.specs.Plain.{plain_row};
ghost use Rattle.web_locks.specs.Requests.{is_unsupported, released, request_answer, requested, lock_rows, stolen};

use crate::index::Index;
use crate::resource::{OwnId, Request, Resource};
use crate::{LockAnswer, LockMode, LockRow, NoLock};
use agent_base::{Label, NoMemory};
use key_map::KeyMap;
use std::alloc::Global;
use std::rc::Rc;

/// The requests by the numbers in whose order they were made, with what finds the numbers.
#[derive(Debug, Drop)]
pub(crate) struct Requests<K: Ord + Drop> {
    /// How many were made, which is the number of the next.
    pub(crate) made: u64,
    pub(crate) rows: KeyMap<u64, Request<K>>,
    pub(crate) index: Index<K>,
}

impl<K: Ord + Drop> Requests<K> {
    /// No requests.
    pub(crate) fn new(alloc: Global) -> Requests<K>
        ensures indexed { IsIndexed K.cmp result }
        ensures empty { result.rows ≡ [] }
    {
        Requests {
            made: 0,
            rows: KeyMap::new(alloc),
            index: Index::new(alloc),
        }
    }

    /// Adds a request behind all others. Want of memory leaves them as they were.
    pub(crate) fn push(&mut self, request: Request<K>) -> Result<(), NoMemory>
        requires indexed { IsIndexed K.cmp self.old }
        ensures indexed { IsIndexed K.cmp self.new }
        ensures pushed { OnOk result
            (self.new.rows ≡ self.old.rows ++ (self.old.made, request) ∷ []) }
        ensures unchanged { OnErr result (self.new.rows ≡ self.old.rows) }
    {
        let number = self.made;
        let Some(made) = number.checked_add(1) else {
            return Err(NoMemory);
        };
        self.rows.insert(number, request)?;
        if self.note(number).is_err() {
            let _ = self.take(number);
            return Err(NoMemory);
        }
        self.made = made;
        Ok(())
    }

    // Makes a request found. Where memory is refused, it may be found by some.
    fn note(&mut self, number: u64) -> Result<(), NoMemory>
        ensures noted { (lock : PlainLock K) → row_at number self.old.rows ≡ Some lock
            → OnOk result (IsNoted K.cmp number lock self.old.index self.new.index) }
        ensures kept { (lock : PlainLock K) → row_at number self.old.rows ≡ Some lock
            → KeepsBut K.cmp number lock self.old.index self.new.index }
        ensures rows { self.new.rows ≡ self.old.rows }
        ensures made { self.new.made ≡ self.old.made }
    {
        match self.rows.get(&number) {
            Some(request) => self.index.note(number, request),
            None => Ok(()),
        }
    }

    /// Takes a request out.
    pub(crate) fn take(&mut self, number: u64) -> Option<Request<K>>
        ensures row { result ≡ row_at number self.old.rows }
        ensures taken { self.new.rows ≡ without_row number self.old.rows }
        ensures told { (lock : PlainLock K) → row_at number self.old.rows ≡ Some lock
            → AreToldBut K.cmp number lock self.old.index self.old.rows
            → AreTold K.cmp self.new.index self.new.rows }
        ensures none { row_at number self.old.rows ≡ None → self.new.index ≡ self.old.index }
        ensures made { self.new.made ≡ self.old.made }
        ensures ordered { IsStrictlySortedBy nat_cmp (keys_of self.old.rows) }
    {
        let request = self.rows.remove(&number)?;
        self.index.forget(number, &request);
        Some(request)
    }

    /// The number of a document's request.
    pub(crate) fn find(&self, owner: Label, id: u32) -> Option<u64>
        ensures found { AreTold K.cmp self.now.index self.now.rows
            → result ≡ first_after None (numbers_where (is_request_of owner id) self.now.rows) }
        ensures ordered { IsStrictlySortedBy nat_cmp (keys_of self.now.rows) }
    {
        prove_eq!(self.rows.is_empty(), self.rows.is_empty());
        self.index.ids.next(&OwnId { owner, id }, None)
    }

    /// The first request of a document behind this one, or its first of all.
    pub(crate) fn next_owned(&self, owner: Label, after: Option<u64>) -> Option<u64>
        ensures next { AreTold K.cmp self.now.index self.now.rows
            → result ≡ first_after after (numbers_where (is_owned owner) self.now.rows) }
    {
        self.index.owners.next(&owner, after)
    }

    /// The first document behind this one that has a request, or the first of all.
    pub(crate) fn next_owner(&self, after: Option<Label>) -> Option<Label>
        requires told { AreTold K.cmp self.now.index self.now.rows }
        ensures next { IsNextOwner after result (locks_of self.now.rows) }
    {
        let mut last = after;
        while let Some(owner) = self.next_told(last) {
            if self.next_owned(owner, None).is_some() {
                return Some(owner);
            }
            last = Some(owner);
        }
        None
    }

    // The first document behind this one of which anything is told.
    fn next_told(&self, after: Option<Label>) -> Option<Label>
        ensures next { result ≡ next_key label_order after self.now.index.owners }
        ensures ordered { IsStrictlySortedBy label_order (keys_of self.now.index.owners) }
    {
        self.index.owners.next_group(after.as_ref()).copied()
    }

    /// Gives a request its lock.
    pub(crate) fn hold(&mut self, resource: &Rc<Resource<K>>, number: u64)
        ensures held { self.new.rows ≡ held_row number self.old.rows }
        ensures told { (lock : PlainLock K) → row_at number self.old.rows ≡ Some lock
            → is_for K.cmp resource.now lock ≡ true → AreTold K.cmp self.old.index self.old.rows
            → AreTold K.cmp self.new.index self.new.rows }
        ensures made { self.new.made ≡ self.old.made }
    {
        hold_row(&mut self.rows, number);
        self.index.waiting.remove(resource, number);
    }

    /// "Process the lock request queue": the first that waits is given its lock, and so on, up to
    /// the first that does not fit those that are held.
    pub(crate) fn process(&mut self, resource: &Rc<Resource<K>>)
        requires indexed { IsIndexed K.cmp self.old }
        requires line { IsOpen (line_at K.cmp resource.now self.old.rows) }
        requires plain { AllByRecursion (λ l. is_plain l ≡ true) (locks_of self.old.rows) }
        ensures indexed { IsIndexed K.cmp self.new }
        ensures processed { locks_of self.new.rows
            ≡ processed_at K.cmp resource.now (locks_of self.old.rows) }
    {
        while let Some(number) = self.next_given(resource) {
            self.hold(resource, number);
        }
    }

    // The first that waits, where it fits those that are held.
    fn next_given(&self, resource: &Rc<Resource<K>>) -> Option<u64>
        requires told { AreTold K.cmp self.now.index self.now.rows }
        requires line { IsOpen (line_at K.cmp resource.now self.now.rows) }
        requires plain { AllByRecursion (λ l. is_plain l ≡ true) (locks_of self.now.rows) }
        ensures next { result ≡ next_given K.cmp resource.now self.now.rows }
        ensures ordered { IsStrictlySortedBy nat_cmp (keys_of self.now.rows) }
    {
        prove_eq!(self.rows.is_empty(), self.rows.is_empty());
        let number = self.index.waiting.next(resource, None)?;
        if self.fits_held(resource, self.mode(number)) {
            Some(number)
        } else {
            None
        }
    }

    /// Whether a request behind all others would be given its lock at once.
    pub(crate) fn is_grantable(&self, resource: &Rc<Resource<K>>, mode: LockMode) -> bool
        requires told { AreTold K.cmp self.now.index self.now.rows }
        requires line { IsOpen (line_at K.cmp resource.now self.now.rows) }
        requires plain { AllByRecursion (λ l. is_plain l ≡ true) (locks_of self.now.rows) }
        ensures grantable { result
            ≡ is_grantable mode (line_at K.cmp resource.now self.now.rows) }
    {
        match self.index.waiting.next(resource, None) {
            Some(_) => false,
            None => self.fits_held(resource, mode),
        }
    }

    // Whether a lock fits those that are held: none of them was stolen, and the first request waits
    // itself, or both are shared.
    fn fits_held(&self, resource: &Rc<Resource<K>>, mode: LockMode) -> bool
        requires told { AreTold K.cmp self.now.index self.now.rows }
        requires line { IsOpen (line_at K.cmp resource.now self.now.rows) }
        requires plain { AllByRecursion (λ l. is_plain l ≡ true) (locks_of self.now.rows) }
        ensures fits { result
            ≡ fits mode (held_modes (line_at K.cmp resource.now self.now.rows)) }
    {
        if self.is_stolen(resource) {
            return false;
        }
        match self.first_in(resource) {
            Some(first) => first.admits(mode),
            None => true,
        }
    }

    // Whether a lock was stolen, and is held since.
    fn is_stolen(&self, resource: &Rc<Resource<K>>) -> bool
        requires told { AreTold K.cmp self.now.index self.now.rows }
        ensures stolen { result
            ≡ list_any (stole_it K.cmp resource.now) (locks_of self.now.rows) }
    {
        self.index.thieves.next(resource, None).is_some()
    }

    // The first request for a name.
    fn first_in(&self, resource: &Rc<Resource<K>>) -> Option<&Request<K>>
        requires told { AreTold K.cmp self.now.index self.now.rows }
        ensures first { option_copied result
            ≡ find (is_for K.cmp resource.now) (locks_of self.now.rows) }
    {
        match self.index.queues.next(resource, None) {
            Some(number) => self.rows.get(&number),
            None => None,
        }
    }

    // The mode of a request.
    fn mode(&self, number: u64) -> LockMode
        ensures mode { result ≡ mode_at number self.now.rows }
    {
        match self.rows.get(&number) {
            Some(request) => request.mode,
            None => LockMode::Exclusive,
        }
    }

    /// Takes out those that hold a lock, which is being stolen.
    pub(crate) fn take_held(&mut self, resource: &Rc<Resource<K>>)
        requires indexed { IsIndexed K.cmp self.old }
        requires thief { HasThief K.cmp resource.now self.old.rows }
        ensures indexed { IsIndexed K.cmp self.new }
        ensures taken { self.new.rows ≡ without_held K.cmp resource.now self.old.rows }
    {
        while let Some(number) = self.holder(resource) {
            let _ = self.take(number);
        }
    }

    // One that holds a lock: one that has stolen it, or the first.
    fn holder(&self, resource: &Rc<Resource<K>>) -> Option<u64>
        requires told { AreTold K.cmp self.now.index self.now.rows }
        ensures holder { result ≡ holder K.cmp resource.now self.now.rows }
        ensures ordered { IsStrictlySortedBy nat_cmp (keys_of self.now.rows) }
    {
        prove_eq!(self.rows.is_empty(), self.rows.is_empty());
        let stolen = self.if_held(self.index.thieves.next(resource, None));
        if stolen.is_some() {
            return stolen;
        }
        self.if_held(self.index.queues.next(resource, None))
    }

    // The number of a request, where it holds its lock.
    fn if_held(&self, number: Option<u64>) -> Option<u64>
        ensures held { result ≡ held_number number self.now.rows }
    {
        match self.rows.get(&number?) {
            Some(request) if request.held => number,
            _ => None,
        }
    }

    /// "Request a lock", of a request that is supported and whose number is free. Want of memory
    /// leaves the requests as they were.
    pub(crate) fn request(
        &mut self,
        request: Request<K>,
        if_available: bool,
    ) -> Result<LockAnswer, NoMemory>
        requires indexed { IsIndexed K.cmp self.old }
        requires standing { IsLockTable K.cmp (locks_of self.old.rows) }
        requires waits { request.held ≡ false }
        requires supported { is_unsupported if_available request ≡ false }
        requires free { has_request request.owner request.id (locks_of self.old.rows) ≡ false }
        ensures indexed { IsIndexed K.cmp self.new }
        ensures standing { IsLockTable K.cmp (locks_of self.new.rows) }
        ensures requested { OnOk result (locks_of self.new.rows
            ≡ requested K.cmp if_available request (locks_of self.old.rows)) }
        ensures answer { IfOk result (λ answer. answer
            ≡ request_answer K.cmp if_available request (locks_of self.old.rows)) }
        ensures unchanged { OnErr result (self.new.rows ≡ self.old.rows) }
    {
        if request.stole {
            self.steal(request)?;
            return Ok(LockAnswer::Held);
        }
        self.queue(request, if_available)
    }

    // Takes a lock from all that hold it, and holds it.
    fn steal(&mut self, request: Request<K>) -> Result<(), NoMemory>
        requires indexed { IsIndexed K.cmp self.old }
        requires standing { IsLockTable K.cmp (locks_of self.old.rows) }
        requires waits { request.held ≡ false }
        ensures indexed { IsIndexed K.cmp self.new }
        ensures stolen { OnOk result (locks_of self.new.rows
            ≡ stolen K.cmp request (locks_of self.old.rows)) }
        ensures unchanged { OnErr result (self.new.rows ≡ self.old.rows) }
    {
        let Ok(resource) = request.resource.clone() else {
            return Err(NoMemory);
        };
        let number = self.made;
        self.push(request)?;
        self.take_held(&resource);
        self.hold(&resource, number);
        Ok(())
    }

    // Holds a lock, or waits for it, or leaves it.
    fn queue(&mut self, mut request: Request<K>, if_available: bool) -> Result<LockAnswer, NoMemory>
        requires indexed { IsIndexed K.cmp self.old }
        requires standing { IsLockTable K.cmp (locks_of self.old.rows) }
        requires steals_not { request.stole ≡ false }
        ensures indexed { IsIndexed K.cmp self.new }
        ensures requested { OnOk result (locks_of self.new.rows
            ≡ requested K.cmp if_available request (locks_of self.old.rows)) }
        ensures answer { IfOk result (λ answer. answer
            ≡ request_answer K.cmp if_available request (locks_of self.old.rows)) }
        ensures unchanged { OnErr result (self.new.rows ≡ self.old.rows) }
    {
        let held = self.is_grantable(&request.resource, request.mode);
        if !held && if_available {
            return Ok(LockAnswer::Unavailable);
        }
        request.set_held(held);
        self.push(request)?;
        Ok(answer_of(held))
    }

    /// "Release a lock", or takes a request back that waits.
    pub(crate) fn release(&mut self, owner: Label, id: u32) -> Result<(), NoLock>
        requires indexed { IsIndexed K.cmp self.old }
        requires standing { IsLockTable K.cmp (locks_of self.old.rows) }
        ensures indexed { IsIndexed K.cmp self.new }
        ensures standing { IsLockTable K.cmp (locks_of self.new.rows) }
        ensures released { locks_of self.new.rows
            ≡ released K.cmp owner id (locks_of self.old.rows) }
        ensures unchanged { OnErr result (self.new.rows ≡ self.old.rows) }
        ensures no_lock { is_err result ≡ not (has_request owner id (locks_of self.old.rows)) }
    {
        let Some(number) = self.find(owner, id) else {
            return Err(NoLock);
        };
        self.release_row(number);
        Ok(())
    }

    // Takes a request out, and processes its queue.
    fn release_row(&mut self, number: u64)
        requires indexed { IsIndexed K.cmp self.old }
        requires standing { IsLockTable K.cmp (locks_of self.old.rows) }
        ensures indexed { IsIndexed K.cmp self.new }
        ensures released { (lock : PlainLock K) → row_at number self.old.rows ≡ Some lock
            → locks_of self.new.rows
            ≡ released K.cmp lock.owner lock.id (locks_of self.old.rows) }
    {
        match self.take(number) {
            Some(request) => self.process(&request.resource),
            None => {}
        }
    }

    /// The number that a document gave its first request.
    pub(crate) fn first_id(&self, owner: Label) -> Option<u32>
        requires told { AreTold K.cmp self.now.index self.now.rows }
        ensures first { result
            ≡ option_map (λ lock. lock.id) (find (is_owned owner) (locks_of self.now.rows)) }
    {
        match self.first_owned(owner) {
            Some(request) => Some(request.id),
            None => None,
        }
    }

    // The first request of a document.
    fn first_owned(&self, owner: Label) -> Option<&Request<K>>
        requires told { AreTold K.cmp self.now.index self.now.rows }
        ensures first { option_copied result ≡ find (is_owned owner) (locks_of self.now.rows) }
    {
        match self.next_owned(owner, None) {
            Some(number) => self.rows.get(&number),
            None => None,
        }
    }

    /// The requests of a document, in the order in which they were made.
    pub(crate) fn listed(&self, alloc: Global, owner: Label) -> Result<Vec<LockRow>, NoMemory>
        requires told { AreTold K.cmp self.now.index self.now.rows }
        ensures rows { IfOk result (λ rows. map plain_row rows.items
            ≡ lock_rows owner (locks_of self.now.rows)) }
    {
        let mut rows = Vec::new(alloc);
        let mut after = None;
        while let Some(number) = self.next_owned(owner, after) {
            self.list(number, &mut rows)?;
            after = Some(number);
        }
        Ok(rows)
    }

    // Adds the row of a request behind others.
    fn list(&self, number: u64, rows: &mut Vec<LockRow>) -> Result<(), NoMemory>
        ensures listed { OnOk result (map plain_row rows.new.items
            ≡ map plain_row rows.old.items ++ rows_at number self.now.rows) }
        ensures ordered { IsStrictlySortedBy nat_cmp (keys_of self.now.rows) }
    {
        prove_eq!(self.rows.is_empty(), self.rows.is_empty());
        let Some(request) = self.rows.get(&number) else {
            return Ok(());
        };
        match rows.push(request.row()?) {
            Ok(()) => Ok(()),
            Err(_) => Err(NoMemory),
        }
    }
}

// Gives the request of a number its lock.
fn hold_row<K: Drop>(rows: &mut KeyMap<u64, Request<K>>, number: u64)
    ensures held { rows.new ≡ held_row number rows.old }
    ensures ordered { IsStrictlySortedBy nat_cmp (keys_of rows.old) }
{
    match rows.get_mut(&number) {
        Some(request) => request.set_held(true),
        None => {}
    }
}

// What a request that is held at once or waits is answered.
fn answer_of(held: bool) -> LockAnswer
    ensures answer { result ≡ (if held then reply.Held else reply.Waiting) }
{
    if held {
        LockAnswer::Held
    } else {
        LockAnswer::Waiting
    }
}
