//! What finds the numbers of requests.
ghost use Rattle.std.specs.Prelude.{◌≡◌, ◌&&◌, [], OnOk};
ghost use Rattle.std.specs.Ordering.{is_eq};
ghost use Rattle.web_locks.specs.Groups.{Adds, AddsAtMost};
ghost use Rattle.web_locks.specs.Index.{IsForgotten, IsNoted, KeepsBut, shared_order};

use crate::groups::Groups;
use crate::resource::{OwnId, Request, Resource};
use agent_base::{Label, NoMemory};
use std::alloc::Global;
use std::rc::Rc;

/// The numbers of requests, by what is asked of them.
#[derive(Debug, Drop)]
pub(crate) struct Index<K: Ord + Drop> {
    pub(crate) ids: Groups<OwnId>,
    pub(crate) owners: Groups<Label>,
    pub(crate) queues: Groups<Rc<Resource<K>>>,
    /// Those that wait.
    pub(crate) waiting: Groups<Rc<Resource<K>>>,
    /// Those that have stolen their lock.
    pub(crate) thieves: Groups<Rc<Resource<K>>>,
}

impl<K: Ord + Drop> Index<K> {
    /// No numbers.
    pub(crate) fn new(alloc: Global) -> Index<K>
        ensures ids { result.ids ≡ [] }
        ensures owners { result.owners ≡ [] }
        ensures queues { result.queues ≡ [] }
        ensures waiting { result.waiting ≡ [] }
        ensures thieves { result.thieves ≡ [] }
    {
        Index {
            ids: Groups::new(alloc),
            owners: Groups::new(alloc),
            queues: Groups::new(alloc),
            waiting: Groups::new(alloc),
            thieves: Groups::new(alloc),
        }
    }

    /// Adds the number of a request. Where memory is refused, some of it may have been added.
    pub(crate) fn note(&mut self, number: u64, request: &Request<K>) -> Result<(), NoMemory>
        ensures noted { OnOk result (IsNoted K.cmp number request.now self.old self.new) }
        ensures kept { KeepsBut K.cmp number request.now self.old self.new }
    {
        self.ids.add(request.own_id(), number)?;
        self.owners.add(request.owner, number)?;
        add_where(true, &mut self.queues, &request.resource, number)?;
        add_where(!request.held, &mut self.waiting, &request.resource, number)?;
        add_where(request.stole, &mut self.thieves, &request.resource, number)
    }

    /// Takes the number of a request out.
    pub(crate) fn forget(&mut self, number: u64, request: &Request<K>)
        ensures forgotten { IsForgotten K.cmp number request.now self.old self.new }
    {
        self.ids.remove(&request.own_id(), number);
        self.owners.remove(&request.owner, number);
        self.queues.remove(&request.resource, number);
        self.waiting.remove(&request.resource, number);
        self.thieves.remove(&request.resource, number);
    }
}

// Adds a number to a group, where it is wanted there.
fn add_where<K: Ord + Drop>(
    is_wanted: bool,
    groups: &mut Groups<Rc<Resource<K>>>,
    resource: &Rc<Resource<K>>,
    number: u64,
) -> Result<(), NoMemory>
    ensures added { OnOk result
        (Adds (shared_order K.cmp) (λ q. is_wanted && is_eq (shared_order K.cmp resource.now q))
        number groups.old groups.new) }
    ensures at_most { AddsAtMost (shared_order K.cmp)
        (λ q. is_wanted && is_eq (shared_order K.cmp resource.now q))
        number groups.old groups.new }
{
    if !is_wanted {
        return Ok(());
    }
    match resource.clone() {
        Ok(resource) => groups.add(resource, number),
        Err(_) => Err(NoMemory),
    }
}
