//! The list that a command names.
ghost use Rattle.std.specs.Prelude.{◌≡◌, IfErr, IfOk, OnOk};
ghost use Rattle.hosts.specs.Hosts.{LeavesOthers, LeavesStores};
ghost use Rattle.replay.specs.BeforeAfter.{from_to};
ghost use Rattle.replay.specs.Readings.{IsListOf, ListRefusal, ListUnread};

use crate::Status;
use agent_base::Fault;
use hosts::Host;
use std::alloc::Global;
use suffix_list::{ListFault, SuffixList};

/// Reads the list of a path to its end, and closes it.
pub fn read_list<H: Host>(alloc: Global, host: &mut H, path: &str) -> Result<SuffixList, Status>
    ensures list { IfOk result (λ list. IsListOf (H.lists host.old path.now) list) }
    ensures still { OnOk result (H.faults host.new ≡ H.faults host.old) }
    ensures refused { IfErr result (λ why. ListRefusal why (H.lists host.old path.now)
        (from_to (H.faults host.old) (H.faults host.new))) }
    ensures unread { IfErr result (λ why. ListUnread why (H.lists host.old path.now)
        (from_to (H.reads host.old) (H.reads host.new))) }
    ensures reads { OnOk result (H.reads host.new ≡ H.reads host.old) }
    ensures others { LeavesOthers path.now (H.lists host.old) (H.lists host.new) }
    ensures closed { H.lists_out host.new ≡ H.lists_out host.old }
    ensures store_faults { H.store_faults host.new ≡ H.store_faults host.old }
    ensures stores { LeavesStores (H.stores host.old) (H.stores host.new) }
    ensures store_out { H.store_out host.new ≡ H.store_out host.old }
    ensures tells { H.tells_stores host.new ≡ H.tells_stores host.old }
{
    let mut list = match host.open_list(path) {
        Ok(list) => list,
        Err(Fault::Failed) => return Err(Status::Read),
        Err(Fault::NoMemory) => return Err(Status::Memory),
    };
    let read = SuffixList::read(alloc, &mut list);
    host.close_list(list);
    match read {
        Ok(list) => Ok(list),
        Err(ListFault::ReadFault) => Err(Status::Read),
        Err(ListFault::NoMemory) => Err(Status::Memory),
        Err(why) => Err(Status::List(why)),
    }
}
