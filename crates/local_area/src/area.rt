//! The pairs of one storage area, with their weight.
ghost use Rattle.std.specs.Prelude.{◌≡◌, ◌≤◌, ◌<◌, ◌+◌, ◌-◌, ◌↔◌, ◌⊎◌, ◌==◌, ◌≢◌, [], length, Some, None, Ok, Err, IfOk, IfErr, IfSome, IfNone, OnOk, OnErr, IsOk, slice_get, string_bytes, option_map, if◌then◌else◌, nat_lt};
ghost use Rattle.std.specs.Option.{option_copied};
ghost use Rattle.local_area.specs.Area.{area_get, area_nth, area_put, area_remove, area_weight, quota, HasDistinctNames};
ghost use Rattle.local_area.specs.Put.{plain_put, put_answer, same};

use crate::places::Places;
use agent_base::NoMemory;
use std::alloc::{AllocError, Global};
use std::marker::Model;

/// The number of bytes that an area may weigh.
pub const QUOTA: usize = 5_242_880;

/// What a [`Area::put`] did.
#[derive(Debug, Drop, PartialEq, Eq)]
pub enum Put {
    /// The name had this value already, and nothing changed.
    Same,
    /// The name is new, and stands last.
    Added,
    /// The name had this other value, and keeps its place.
    Changed(String),
}

impl Put {
    /// The same answer, over memory of its own.
    pub fn copy(&self) -> Result<Put, NoMemory>
        ensures same { IfOk result (λ p. plain_put p ≡ plain_put self.now) }
    {
        match self {
            Put::Same => Ok(Put::Same),
            Put::Added => Ok(Put::Added),
            Put::Changed(before) => Ok(Put::Changed(before.clone()?)),
        }
    }
}

/// Why a [`Area::put`] was refused. The area is as it was.
#[derive(Clone, Copy, Debug, PartialEq, Eq)]
pub enum AreaFault {
    /// The area would weigh so much, which passes the quota.
    Quota(u128),
    /// A growth of memory was refused.
    NoMemory,
}

impl AreaFault {
    /// Why a pair is refused where its area is not there and memory for it is wanting: the quota,
    /// where the pair alone passes it, and else memory.
    pub fn without_area(name: &str, value: &str) -> AreaFault
        ensures fault { let after = area_weight (area_put name.now value.now []) in
            result ≡ (if nat_lt quota after then AreaFault.Quota after else AreaFault.NoMemory) }
    {
        let weight = name.len() as u128 + value.len() as u128;
        if weight <= QUOTA as u128 {
            return AreaFault::NoMemory;
        }
        AreaFault::Quota(weight)
    }
}

impl From<NoMemory> for AreaFault {
    ghost use Rattle.std.specs.Prelude.{◌≡◌};
    ghost use Rattle.local_area.specs.declared.area.AreaFault.TheVariants as fault;

    ghost from_gives = { λ _ e. e ≡ fault.NoMemory };

    fn from(_: NoMemory) -> AreaFault {
        AreaFault::NoMemory
    }
}

impl From<AllocError> for AreaFault {
    ghost use Rattle.std.specs.Prelude.{◌≡◌};
    ghost use Rattle.local_area.specs.declared.area.AreaFault.TheVariants as fault;

    ghost from_gives = { λ _ e. e ≡ fault.NoMemory };

    fn from(_: AllocError) -> AreaFault {
        AreaFault::NoMemory
    }
}

/// Names and values of one storage key, in the order in which the names came.
#[derive(Debug, Drop)]
pub struct Area {
    pairs: Places,
    weight: usize,
}

impl Model for Area {
    ghost use Rattle.std.specs.Prelude.{List};
    ghost use Rattle.local_area.specs.Area.{Pair};

    ghost Value = { List Pair };

    ghost use Rattle.local_area.specs.Stored.{IsArea};

    ghost view = { λ a. a.pairs };

    ghost invariant = { λ a. IsArea a.pairs a.weight };
}

impl Area {
    /// An area without pairs.
    pub fn new(alloc: Global) -> Area
        ensures empty { result ≡ [] }
    {
        Area {
            pairs: Places::new(alloc),
            weight: 0,
        }
    }

    /// The number of pairs.
    pub fn len(&self) -> usize
        ensures len { result ≡ length self.now }
        ensures distinct { HasDistinctNames self.now }
    {
        self.pairs.len()
    }

    /// Whether there is no pair.
    pub fn is_empty(&self) -> bool
        ensures empty { result ≡ (length self.now == 0) }
    {
        self.pairs.len() == 0
    }

    /// The bytes of all names and values. It is kept, and not summed.
    pub fn weight(&self) -> usize
        ensures weight { result ≡ area_weight self.now }
        ensures within { result ≤ quota }
    {
        self.weight
    }

    /// The value of a name.
    pub fn get(&self, name: &str) -> Option<&str>
        ensures value { option_copied result ≡ area_get name.now self.now }
    {
        self.pairs.get(name)
    }

    /// The name at a place, counted from 0.
    pub fn key(&self, n: u32) -> Option<&str>
        ensures name { option_copied result ≡ area_nth n self.now }
    {
        match self.pairs.nth(n as usize) {
            Some((name, _)) => Some(name),
            None => None,
        }
    }

    /// The name and the value at a place, counted from 0.
    pub fn pair(&self, place: usize) -> Option<(&str, &str)>
        ensures pair { option_map (λ p. record { name = p.0.now; value = p.1.now }) result
            ≡ slice_get self.now place }
    {
        self.pairs.nth(place)
    }

    /// Gives a name a value: in its place where the name is there, else at the end.
    ///
    /// A refusal leaves the area as it was. The value that is there is never refused.
    pub fn put(&mut self, name: String, value: String) -> Result<Put, AreaFault>
        ensures stored { OnOk result (self.new
            ≡ area_put (string_bytes name) (string_bytes value) self.old) }
        ensures answer { IfOk result (λ p. plain_put p
            ≡ put_answer (string_bytes name) (string_bytes value) self.old) }
        ensures quota { let pairs = area_put (string_bytes name) (string_bytes value) self.old in
            let after = area_weight pairs in
            (result ≡ Err (AreaFault.Quota after)) ↔ (quota < after) }
        ensures causes { let pairs = area_put (string_bytes name) (string_bytes value) self.old in
            let after = area_weight pairs in
            IfErr result (λ e. (e ≡ AreaFault.Quota after) ⊎ (e ≡ AreaFault.NoMemory)) }
        ensures memory { result ≡ Err AreaFault.NoMemory → area_get (string_bytes name) self.old
            ≡ None }
        ensures still { result ≡ Ok Put.Same → self.new ≡ self.old }
        ensures kept { put_answer (string_bytes name) (string_bytes value) self.old ≡ same
            → IsOk result }
        ensures unchanged { OnErr result (self.new ≡ self.old) }
    {
        let Some(weight) = self.weight_with(&name, &value) else {
            return Ok(Put::Same);
        };
        if weight > QUOTA as u128 {
            return Err(AreaFault::Quota(weight));
        }
        let Ok(before) = self.pairs.insert(name, value) else {
            return Err(AreaFault::NoMemory);
        };
        self.weight = weight as usize;
        match before {
            Some(before) => Ok(Put::Changed(before)),
            None => Ok(Put::Added),
        }
    }

    /// Why a pair is refused where memory is wanting before the area can be changed: the quota,
    /// where the area would pass it, and else memory.
    pub fn refusal(&self, name: &str, value: &str) -> AreaFault
        ensures fault { let after = area_weight (area_put name.now value.now self.now) in
            result ≡ (if nat_lt quota after then AreaFault.Quota after else AreaFault.NoMemory) }
    {
        let weight = self.weight_after(name, value);
        if weight <= QUOTA as u128 {
            return AreaFault::NoMemory;
        }
        AreaFault::Quota(weight)
    }

    /// Removes a name, and gives the value that it had.
    pub fn remove(&mut self, name: &str) -> Option<String>
        ensures value { option_map string_bytes result ≡ area_get name.now self.old }
        ensures removed { self.new ≡ area_remove name.now self.old }
    {
        let value = self.pairs.remove(name)?;
        self.weight -= name.len() + value.len();
        Some(value)
    }

    /// Removes all pairs.
    pub fn clear(&mut self)
        ensures empty { self.new ≡ [] }
    {
        self.pairs.clear();
        self.weight = 0;
    }

    /// An area with the same pairs in the same order.
    pub fn copy(&self) -> Result<Area, NoMemory>
        ensures same { IfOk result (λ area. area ≡ self.now) }
    {
        let pairs = self.pairs.copy()?;
        Ok(Area {
            pairs,
            weight: self.weight,
        })
    }

    // The weight after a put.
    fn weight_after(&self, name: &str, value: &str) -> u128
        ensures weight { result ≡ area_weight (area_put name.now value.now self.now) }
    {
        match self.weight_with(name, value) {
            Some(weight) => weight,
            None => self.weight as u128,
        }
    }

    // The weight after a put, and none where the name has this value already.
    fn weight_with(&self, name: &str, value: &str) -> Option<u128>
        ensures weight { IfSome result
            (λ w. w ≡ area_weight (area_put name.now value.now self.now)) }
        ensures other { IfSome result (λ w. area_get name.now self.now ≢ Some value.now) }
        ensures same { IfNone result (area_get name.now self.now ≡ Some value.now) }
    {
        match self.get(name) {
            Some(before) if before == value => None,
            Some(before) => Some((self.weight - before.len()) as u128 + value.len() as u128),
            None => Some((self.weight + name.len()) as u128 + value.len() as u128),
        }
    }
}

impl Clone for Area {
    ghost is_clone = { λ area clone. clone ≡ area };

    fn clone(&self) -> Result<Area, AllocError> {
        match self.copy() {
            Ok(area) => Ok(area),
            Err(NoMemory) => Err(AllocError),
        }
    }
}
