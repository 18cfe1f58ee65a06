// In which changing calls a disk in memory fails, and when its power is cut.
ghost use Rattle.std.specs.Prelude.{◌≡◌, ◌↔◌, ◌<◌, ◌≤◌, nat_lt, [], None, IsTrue, filter, is_some};
ghost use Rattle.std.specs.Prelude.{MatchBool, Some};
ghost use Rattle.disk_model.specs.Disk.{IsNextCut};
ghost use Rattle.disk_model.specs.MemDisk.{numbers_of, told_cuts};
ghost use Rattle.disk_model.specs.Schedule.{AreFrom, Plan, next_fails, next_plan, pick_at};
ghost use Rattle.disk_model.specs.Schedule.{cuts_after};

use std::marker::Model;

/// A cut of the power in a changing call, counted from 1. The pick says what it leaves:
/// 0 what was synced, 1 every write in place, 2 each range spoiled, 3 its first half in place.
#[derive(Clone, Copy, Debug, PartialEq, Eq)]
pub struct Cut {
    pub call: u64,
    pub pick: u8,
}

/// The changing calls made so far, and those that are to fail.
#[derive(Debug, Drop)]
pub struct Schedule {
    calls: u64,
    cuts: Vec<Cut>,
    next: usize,
    fails: Vec<u64>,
    off: Option<u8>,
}

impl Model for Schedule {
    ghost use Rattle.std.specs.Prelude.{drop, ◌+◌, ◌<◌};
    ghost use Rattle.disk_model.specs.Schedule.{Plan, AreFrom};

    ghost Value = { Plan };

    ghost view = { λ s. record {
      calls = s.calls;
      cuts = drop s.next s.cuts.items;
      fails = s.fails.items;
      off = s.off;
    } };

    ghost invariant = { λ s. AreFrom (s.calls + 1) (drop s.next s.cuts.items) };
}

impl Schedule {
    /// No call was made yet, and the power is on.
    pub fn new(cuts: Vec<Cut>, fails: Vec<u64>) -> Schedule
        requires { AreFrom 1 cuts.items }
        ensures plan { result ≡ record {
          calls = 0;
          cuts = cuts.items;
          fails = fails.items;
          off = None;
        } }
        ensures told { fails.items ≡ [] → told_cuts result ≡ Some (numbers_of cuts.items) }
    {
        Schedule {
            calls: 0,
            cuts,
            next: 0,
            fails,
            off: None,
        }
    }

    pub fn calls(&self) -> u64
        ensures { result ≡ self.now.calls }
    {
        self.calls
    }

    pub fn off(&self) -> Option<u8>
        ensures { result ≡ self.now.off }
    {
        self.off
    }

    /// Whether the power is off.
    pub fn is_off(&self) -> bool
        ensures { result ≡ is_some self.now.off }
    {
        self.off.is_some()
    }

    // The pick of the cut that fires in the call just counted, if one does.
    fn cut(&mut self, call: u64) -> Option<u8>
        requires { AreFrom call self.old.cuts }
        ensures pick { result ≡ pick_at call self.old.cuts }
        ensures plan { self.new ≡ record self.old {
          calls = call;
          cuts = cuts_after call self.old.cuts;
        } }
    {
        let mut pick = None;
        if self.next < self.cuts.len() && self.cuts[self.next].call == call {
            pick = Some(self.cuts[self.next].pick);
            self.next += 1;
        }
        self.calls = call;
        pick
    }

    /// One changing call more: whether it is to fail.
    pub fn call(&mut self) -> bool
        requires on { self.old.off ≡ None }
        ensures later { self.old.calls ≤ self.new.calls }
        ensures fails { result ≡ next_fails self.old }
        ensures plan { self.new ≡ next_plan self.old }
        ensures told { MatchBool result
            (IsNextCut (told_cuts self.old) (told_cuts self.new) self.new.calls)
            (told_cuts self.new ≡ told_cuts self.old) }
    {
        let call = self.calls.saturating_add(1);
        let pick = self.cut(call);
        self.off = pick;
        pick.is_some() || self.fails.contains(&call)
    }

    /// The power comes back.
    pub fn restart(&mut self)
        ensures plan { self.new ≡ record self.old { off = None } }
    {
        self.off = None;
    }

    /// The calls count from 0 again, and the cuts and failing calls that came are gone.
    pub fn begin_again(&mut self)
        ensures plan { self.new ≡ record {
          calls = 0;
          cuts = self.old.cuts;
          fails = filter (λ number. nat_lt self.old.calls number) self.old.fails;
          off = None;
        } }
        ensures told { self.new.fails ≡ [] → told_cuts self.new ≡ Some (numbers_of self.old.cuts) }
    {
        let calls = self.calls;
        self.fails.retain(|number| *number > calls);
        self.calls = 0;
        self.off = None;
    }
}
