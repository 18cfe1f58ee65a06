//! Hosts: where the files that a command names are found.
ghost use Rattle.std.specs.Prelude.{◌≡◌, ◌<◌, ◌+◌, ℕ, List, Option, Some, None, Bool, true};
ghost use Rattle.std.specs.Prelude.{false, IfOk, IsErr, IsErrOf, MatchResult};
ghost use Rattle.disk_model.specs.Disk.{IsSettled};
ghost use Rattle.hosts.specs.Hosts.{HasLeft, HasOpenCause, HasStoreCause, HoldsOneOf};
ghost use Rattle.hosts.specs.Hosts.{LeavesOtherStores, LeavesOthers, LeavesStores, SameImages, raised};

use crate::StoreFault;
use agent_base::{Fault, Source};
use disk_model::Disk;

/// Where suffix lists and stores are found, by their paths. One store is out at a time.
pub trait Host {
    type List: Source + Drop;

    type Store: Disk + Drop;

    // the bytes of the list of a path, where the host tells them
    ghost lists: { Self → List ℕ → Option (List ℕ) };

    // how many lists are out: opened, and not closed yet
    ghost lists_out: { Self → ℕ };

    // how many calls failed, here and at the lists and stores that were closed
    ghost faults: { Self → ℕ };

    // how many calls failed at the lists that were closed
    ghost reads: { Self → ℕ };

    // how many calls failed at the stores that were closed
    ghost store_faults: { Self → ℕ };

    // whether the host tells what stores hold; no call changes this
    ghost tells_stores: { Self → Bool };

    // what an opening of the store of a path may find, while that store is not out
    ghost stores: { Self → List ℕ → List ℕ → Type 0 };

    // the path whose store is out: opened, and not closed yet
    ghost store_out: { Self → Option (List ℕ) };

    /// Opens the list of a path, which is out until it is closed. A list of which the host tells
    /// the bytes is opened.
    fn open_list(&mut self, path: &str) -> Result<Self::List, Fault>
        ensures fresh { IfOk result (λ list. Self.List.faults list ≡ 0) }
        ensures told { IfOk result
            (λ list. HasLeft (lists self.old path.now) (Self.List.left list)) }
        ensures cause { HasOpenCause (faults self.old) (faults self.new) result }
        ensures there { IsErrOf result Fault.Failed → lists self.old path.now ≡ None }
        ensures unread { reads self.new ≡ reads self.old }
        ensures store_faults { store_faults self.new ≡ store_faults self.old }
        ensures out { MatchResult result (λ _. lists_out self.new ≡ lists_out self.old + 1)
            (λ _. lists_out self.new ≡ lists_out self.old) }
        ensures others { LeavesOthers path.now (lists self.old) (lists self.new) }
        ensures unchanged { IsErr result → lists self.new ≡ lists self.old }
        ensures stores { LeavesStores (stores self.old) (stores self.new) }
        ensures store_out { store_out self.new ≡ store_out self.old }
        ensures tells { tells_stores self.new ≡ tells_stores self.old };

    /// Takes an opened list back. Its faults count as the host's.
    fn close_list(&mut self, list: Self::List)
        requires { 0 < lists_out self.old }
        ensures raised { faults self.new ≡ raised (Self.List.faults list) (faults self.old) }
        ensures read { reads self.new ≡ raised (Self.List.faults list) (reads self.old) }
        ensures store_faults { store_faults self.new ≡ store_faults self.old }
        ensures out { lists_out self.old ≡ lists_out self.new + 1 }
        ensures unchanged { lists self.new ≡ lists self.old }
        ensures stores { LeavesStores (stores self.old) (stores self.new) }
        ensures store_out { store_out self.new ≡ store_out self.old }
        ensures tells { tells_stores self.new ≡ tells_stores self.old };

    /// Opens the store of a path, which is out until it is closed. Where there is none, an empty
    /// one is made. One that is open already, here or in another process, may be refused so.
    fn open_store(&mut self, path: &str) -> Result<Self::Store, StoreFault>
        requires { store_out self.old ≡ None }
        ensures fresh { IfOk result (λ store. (Self.Store.view store).faults ≡ 0) }
        ensures settled { IfOk result (λ store. IsSettled (Self.Store.view store)) }
        ensures on { IfOk result (λ store. (Self.Store.view store).off ≡ false) }
        ensures told { tells_stores self.old ≡ true → IfOk result
            (λ store. HoldsOneOf (stores self.old path.now) (Self.Store.view store)) }
        ensures cause { HasStoreCause (faults self.old) (faults self.new) result }
        ensures unread { reads self.new ≡ reads self.old }
        ensures store_faults { store_faults self.new ≡ store_faults self.old }
        ensures lists { lists self.new ≡ lists self.old }
        ensures lists_out { lists_out self.new ≡ lists_out self.old }
        ensures out { MatchResult result (λ _. store_out self.new ≡ Some path.now)
            (λ _. store_out self.new ≡ None) }
        ensures others { LeavesOtherStores path.now (stores self.old) (stores self.new) }
        ensures unchanged { IsErr result → LeavesStores (stores self.old) (stores self.new) }
        ensures tells { tells_stores self.new ≡ tells_stores self.old };

    /// Takes the store that is out back to its path. Its faults count as the host's.
    fn close_store(&mut self, path: &str, store: Self::Store)
        requires { store_out self.old ≡ Some path.now }
        ensures raised { faults self.new
            ≡ raised (Self.Store.view store).faults (faults self.old) }
        ensures store_faults { store_faults self.new
            ≡ raised (Self.Store.view store).faults (store_faults self.old) }
        ensures unread { reads self.new ≡ reads self.old }
        ensures lists { lists self.new ≡ lists self.old }
        ensures lists_out { lists_out self.new ≡ lists_out self.old }
        ensures out { store_out self.new ≡ None }
        ensures told { tells_stores self.old ≡ true
            → SameImages (Self.Store.view store).may_leave (stores self.new path.now) }
        ensures others { LeavesOtherStores path.now (stores self.old) (stores self.new) }
        ensures tells { tells_stores self.new ≡ tells_stores self.old };
}

/// A count after so many faults more.
pub fn count_up(count: u64, faults: u64) -> u64
    ensures { result ≡ raised faults count }
{
    count.saturating_add(faults)
}
