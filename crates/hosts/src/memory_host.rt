//! A host in memory, for tests.
ghost use Rattle.std.specs.Prelude.{◌≡◌, ◌<◌, ◌+◌, ◌^◌, ◌↔◌, ◌⊎◌, [], All, Some, None, Ok, Err};
ghost use Rattle.std.specs.Prelude.{IfOk, IfSome, IsErr, IsErrOf, MatchResult, OnErr, OnOk};
ghost use Rattle.std.specs.Prelude.{IsTrue, is_ok, is_some, true, false, length, option_map};
ghost use Rattle.std.specs.Prelude.{string_bytes, vec_capacity, vec_len, if◌then◌else◌};
ghost use Rattle.agent_base.specs.Counts.{next_count};
ghost use Rattle.disk_model.specs.Disk.{IsSettled};
ghost use Rattle.disk_model.specs.MemDisk.{view_of};
ghost use Rattle.hosts.specs.Entries.{bytes_at, found_at, without_first};
ghost use Rattle.hosts.specs.Hosts.{HasLeft, HasOpenCause, HoldsOneOf, LeavesOthers};
ghost use Rattle.hosts.specs.Hosts.{LeavesOtherStores, SameImages, raised};
ghost use Rattle.hosts.specs.MemoryStores.{IsReopened, disk_at, images_at};

use crate::entries::place_of;
use crate::host::count_up;
use crate::{Host, StoreFault};
use agent_base::{Fault, MemSource};
use disk_model::MemDisk;
use std::alloc::{AllocError, Global};

/// Lists and stores in memory, each under a path. Of two of one path the first is found. What is
/// opened is gone from the host, until a store is closed. A list that is closed stays gone.
#[derive(Debug, Drop)]
pub struct MemHost {
    lists: Vec<(String, MemSource)>,
    lists_out: u64,
    stores: Vec<(String, MemDisk)>,
    store_out: Option<String>,
    faults: u64,
    reads: u64,
    store_faults: u64,
    ghost fresh: { All (λ entry. entry.1.faults ≡ 0) lists.items },
    ghost counted: { lists_out + length lists.items < 2 ^ 64 },
    ghost room: { is_some store_out ≡ true → vec_len stores < vec_capacity stores },
}

impl MemHost {
    /// A host with these lists and these stores.
    pub fn new(lists: Vec<(String, MemSource)>, stores: Vec<(String, MemDisk)>) -> MemHost
        requires { All (λ entry. entry.1.faults ≡ 0) lists.items }
        ensures lists { result.lists.items ≡ lists.items }
        ensures stores { result.stores.items ≡ stores.items }
        ensures out { (result.lists_out ≡ 0) × (result.store_out ≡ None) }
        ensures faults { (result.faults ≡ 0) × (result.reads ≡ 0) × (result.store_faults ≡ 0) }
    {
        MemHost {
            lists,
            lists_out: 0,
            stores,
            store_out: None,
            faults: 0,
            reads: 0,
            store_faults: 0,
        }
    }

    /// The store of a path, as it was handed over or handed back.
    pub fn store(&self, path: &str) -> Option<&MemDisk>
        ensures none { (result ≡ None) ↔ ((found_at self.now.stores.items path.now ≡ None)
            ⊎ (option_map string_bytes self.now.store_out ≡ Some path.now)) }
        ensures there { IfSome result
            (λ disk. found_at self.now.stores.items path.now ≡ Some disk.now) }
    {
        if self.is_out(path) {
            return None;
        }
        let place = place_of(&self.stores, path)?;
        Some(&self.stores[place].1)
    }

    // Whether the store of this path is out.
    fn is_out(&self, path: &str) -> bool
        ensures { IsTrue result ↔ (option_map string_bytes self.now.store_out ≡ Some path.now) }
    {
        match &self.store_out {
            Some(out) => path == out.as_str(),
            None => false,
        }
    }
}

// Takes the store of a path out, with its name. Where there is none, an empty one is made, and the
// place where it is to stand.
fn take_store(
    stores: &mut Vec<(String, MemDisk)>,
    path: &str,
) -> Result<(String, MemDisk), AllocError>
    ensures name { IfOk result (λ entry. string_bytes entry.0 ≡ path.now) }
    ensures disk { IfOk result (λ entry. IsReopened (disk_at stores.old.items path.now) entry.1) }
    ensures image { IfOk result
        (λ entry. HoldsOneOf (images_at stores.old.items path.now) (view_of entry.1)) }
    ensures settled { IfOk result (λ entry. IsSettled (view_of entry.1)) }
    ensures rest { stores.new.items ≡ (if is_ok result
        then without_first stores.old.items path.now else stores.old.items) }
    ensures place { OnOk result (vec_len stores.new < vec_capacity stores.new) }
    ensures missing { IsErr result → found_at stores.old.items path.now ≡ None }
{
    if let Some(place) = place_of(stores, path) {
        let (name, disk) = stores.remove(place);
        return Ok((name, disk.reopen()));
    }
    let alloc = *stores.allocator();
    let name = String::from_str(alloc, path)?;
    stores.reserve(1)?;
    Ok((name, empty_disk(alloc).reopen()))
}

// A disk of no bytes, on which no call was made.
fn empty_disk(alloc: Global) -> MemDisk
    ensures contents { (result.past.first ≡ []) × (result.past.events ≡ []) }
    ensures plan { result.plan ≡ record { calls = 0; cuts = []; fails = []; off = None } }
{
    let bytes = Vec::new(alloc);
    MemDisk::new(alloc, bytes, Vec::new(alloc), Vec::new(alloc))
}

impl Host for MemHost {
    type List = MemSource;

    type Store = MemDisk;

    ghost lists = { λ h. bytes_at h.lists.items };

    ghost lists_out = { λ h. h.lists_out };

    ghost faults = { λ h. h.faults };

    ghost reads = { λ h. h.reads };

    ghost store_faults = { λ h. h.store_faults };

    ghost tells_stores = { λ h. true };

    ghost stores = { λ h. images_at h.stores.items };

    ghost store_out = { λ h. option_map string_bytes h.store_out };

    // The trait's clauses, and after them exactly what this host answers, and which lists it keeps.
    fn open_list(&mut self, path: &str) -> Result<MemSource, Fault>
        ensures fresh { IfOk result (λ list. list.faults ≡ 0) }
        ensures told { IfOk result
            (λ list. HasLeft (bytes_at self.old.lists.items path.now) (Some list.left)) }
        ensures cause { HasOpenCause self.old.faults self.new.faults result }
        ensures there { IsErrOf result Fault.Failed
            → bytes_at self.old.lists.items path.now ≡ None }
        ensures unread { self.new.reads ≡ self.old.reads }
        ensures store_faults { self.new.store_faults ≡ self.old.store_faults }
        ensures out { MatchResult result (λ _. self.new.lists_out ≡ self.old.lists_out + 1)
            (λ _. self.new.lists_out ≡ self.old.lists_out) }
        ensures others { LeavesOthers path.now (bytes_at self.old.lists.items)
            (bytes_at self.new.lists.items) }
        ensures unchanged { IsErr result
            → bytes_at self.new.lists.items ≡ bytes_at self.old.lists.items }
        ensures stores { self.new.stores ≡ self.old.stores }
        ensures store_out { self.new.store_out ≡ self.old.store_out }
        ensures missing { (result ≡ Err Fault.Failed)
            ↔ (bytes_at self.old.lists.items path.now ≡ None) }
        ensures no_memory { result ≡ Err Fault.NoMemory → ⊥ }
        ensures count { OnErr result (self.new.faults ≡ next_count self.old.faults) }
        ensures taken { OnOk result
            (self.new.lists.items ≡ without_first self.old.lists.items path.now) }
        ensures kept { OnErr result (self.new.lists.items ≡ self.old.lists.items) }
    {
        match place_of(&self.lists, path) {
            Some(place) => {
                let (_, list) = self.lists.remove(place);
                self.lists_out += 1;
                Ok(list)
            }
            None => {
                self.faults = self.faults.saturating_add(1);
                Err(Fault::Failed)
            }
        }
    }

    // The trait's clauses, and after them that every list and store is kept.
    fn close_list(&mut self, list: MemSource)
        requires { 0 < self.old.lists_out }
        ensures raised { self.new.faults ≡ raised list.faults self.old.faults }
        ensures read { self.new.reads ≡ raised list.faults self.old.reads }
        ensures store_faults { self.new.store_faults ≡ self.old.store_faults }
        ensures out { self.old.lists_out ≡ self.new.lists_out + 1 }
        ensures unchanged { bytes_at self.new.lists.items ≡ bytes_at self.old.lists.items }
        ensures stores { self.new.stores ≡ self.old.stores }
        ensures store_out { self.new.store_out ≡ self.old.store_out }
        ensures kept { self.new.lists.items ≡ self.old.lists.items }
    {
        self.lists_out -= 1;
        self.faults = count_up(self.faults, list.faults());
        self.reads = count_up(self.reads, list.faults());
    }

    // The trait's clauses, and after them exactly what this host opens, and which stores it keeps.
    // It never fails, and wants memory only for a store that is not there.
    fn open_store(&mut self, path: &str) -> Result<MemDisk, StoreFault>
        requires { option_map string_bytes self.old.store_out ≡ None }
        ensures fresh { IfOk result (λ store. store.faults ≡ 0) }
        ensures settled { IfOk result (λ store. IsSettled (view_of store)) }
        ensures on { IfOk result (λ store. is_some store.plan.off ≡ false) }
        ensures told { IfOk result
            (λ store. HoldsOneOf (images_at self.old.stores.items path.now) (view_of store)) }
        ensures counts { (self.new.faults ≡ self.old.faults) × (self.new.reads ≡ self.old.reads)
            × (self.new.store_faults ≡ self.old.store_faults) }
        ensures lists { (self.new.lists ≡ self.old.lists)
            × (self.new.lists_out ≡ self.old.lists_out) }
        ensures out { MatchResult result
            (λ _. option_map string_bytes self.new.store_out ≡ Some path.now)
            (λ _. self.new.store_out ≡ None) }
        ensures others { LeavesOtherStores path.now (images_at self.old.stores.items)
            (images_at self.new.stores.items) }
        ensures answer { (result ≡ Err StoreFault.Failed) ⊎ (result ≡ Err StoreFault.InUse) → ⊥ }
        ensures missing { IsErr result → found_at self.old.stores.items path.now ≡ None }
        ensures reopened { IfOk result
            (λ store. IsReopened (disk_at self.old.stores.items path.now) store) }
        ensures taken { OnOk result
            (self.new.stores.items ≡ without_first self.old.stores.items path.now) }
        ensures kept { OnErr result (self.new.stores.items ≡ self.old.stores.items) }
    {
        let (name, disk) = take_store(&mut self.stores, path)?;
        self.store_out = Some(name);
        Ok(disk)
    }

    // The trait's clauses, and after them that the store stands at its path as it was handed back,
    // in front of all others.
    fn close_store(&mut self, path: &str, store: MemDisk)
        requires { option_map string_bytes self.old.store_out ≡ Some path.now }
        ensures raised { self.new.faults ≡ raised store.faults self.old.faults }
        ensures store_faults { self.new.store_faults ≡ raised store.faults self.old.store_faults }
        ensures unread { self.new.reads ≡ self.old.reads }
        ensures lists { (self.new.lists ≡ self.old.lists)
            × (self.new.lists_out ≡ self.old.lists_out) }
        ensures out { self.new.store_out ≡ None }
        ensures told { SameImages (view_of store).may_leave
            (images_at self.new.stores.items path.now) }
        ensures others { LeavesOtherStores path.now (images_at self.old.stores.items)
            (images_at self.new.stores.items) }
        ensures back { found_at self.new.stores.items path.now ≡ Some store }
        ensures kept { without_first self.new.stores.items path.now ≡ self.old.stores.items }
    {
        self.faults = count_up(self.faults, store.faults());
        self.store_faults = count_up(self.store_faults, store.faults());
        if let Some(name) = self.store_out.take() {
            let _ = self.stores.insert(0, (name, store));
        }
    }
}
