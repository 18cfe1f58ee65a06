//! One session area, which tabs may share.
ghost use Rattle.std.specs.Prelude.{◌≡◌, [], IfErr, IfOk};
ghost use Rattle.std.specs.Borrow.{sem};
ghost use Rattle.session_area.specs.Lends.{LendsOwn};

use agent_base::NoMemory;
use local_area::Area;
use std::alloc::{AllocError, Global};
use std::marker::Model;
use std::rc::Rc;

/// Why an area is not lent to be changed.
#[derive(Clone, Copy, Debug, PartialEq, Eq)]
pub enum NotLent {
    /// The tab has no area under the key.
    NoArea,
    /// The area is shared, and memory for a copy of it was refused.
    NoMemory,
}

/// A session area, which tabs share until one of them changes it.
#[derive(Debug, Drop)]
pub struct SharedArea {
    area: Rc<Area>,
}

impl Model for SharedArea {
    ghost use Rattle.std.specs.Prelude.{List};
    ghost use Rattle.std.specs.Rc.{rc_value};
    ghost use Rattle.local_area.specs.Area.{Pair};

    ghost Value = { List Pair };

    ghost view = { λ s. rc_value s.area };
}

impl SharedArea {
    /// The area, to be read.
    pub fn area(&self) -> &Area
        ensures area { result.now ≡ self.now }
    {
        self.area.as_ref()
    }

    // An area without pairs, which is not shared.
    pub(crate) fn new(alloc: Global) -> Result<SharedArea, NoMemory>
        ensures empty { IfOk result (λ area. area ≡ []) }
    {
        match Rc::new(alloc, Area::new(alloc)) {
            Ok(area) => Ok(SharedArea { area }),
            Err(_) => Err(NoMemory),
        }
    }

    // The same area, in constant time. It is refused only where a count of those that share it is
    // full.
    pub(crate) fn share(&self) -> Result<SharedArea, NoMemory>
        ensures same { IfOk result (λ area. area ≡ self.now) }
    {
        match self.area.clone() {
            Ok(area) => Ok(SharedArea { area }),
            Err(_) => Err(NoMemory),
        }
    }

    // The area, to be changed. It is copied first where it is shared, in time linear in it, and
    // is then shared no more.
    pub(crate) fn own(&mut self) -> Result<&mut Area, NotLent>
        ensures* writes_back { sem 𝓛 (LendsOwn self.entry result) }
        ensures area { IfOk result (λ area. area.now ≡ self.old) }
        ensures memory { IfErr result (λ e. e ≡ NotLent.NoMemory) }
    {
        match Rc::make_mut(&mut self.area) {
            Ok(area) => Ok(area),
            Err(_) => Err(NotLent::NoMemory),
        }
    }
}

impl Clone for SharedArea {
    ghost is_clone = { λ area clone. clone ≡ area };

    fn clone(&self) -> Result<SharedArea, AllocError> {
        match self.share() {
            Ok(area) => Ok(area),
            Err(NoMemory) => Err(AllocError),
        }
    }
}
