//! What a cell becomes.
ghost use Rattle.std.specs.Prelude.{◌≡◌, IsTrue};
ghost use Rattle.std.specs.Option.{ForSome};
ghost use Rattle.std.specs.Rc.{rc_value};
ghost use Rattle.partition_limits.specs.declared.tally.CellKind.{CellKind};
ghost use Rattle.agent_model.specs.CookieCells.{Cookies};
ghost use Rattle.web_cookies.specs.Becoming.{FitsKey, becomes_of, kind_after, replaced_in};
ghost use Rattle.web_cookies.specs.Keys.{own_of, partition_of};

use crate::keys::UseKeys;
use crate::rows::replace_in;
use cookie_jar::{Cookie, Jar};
use std::rc::Rc;

/// A cookie, and the place of the same one, which it is put in.
#[derive(Debug, Drop)]
pub struct Replacement {
    pub place: usize,
    pub cookie: Cookie,
}

/// What the cookies of a cell become.
#[derive(Debug, Drop)]
pub enum Becomes {
    /// Those at these places were sent at a moment, and then one may have been replaced.
    Marked {
        places: Vec<usize>,
        now: i64,
        new: Option<Replacement>,
    },
    /// They are those of this jar.
    Stored(Jar),
}

/// The cells of a use, and what their cookies become. Where a use has no unpartitioned cell, what
/// `own` says is not done.
#[derive(Debug, Drop)]
pub struct BothChanges {
    pub keys: Rc<UseKeys>,
    pub own: Becomes,
    pub partition: Becomes,
    // a jar is of the kind of its cell
    ghost own_fits: { ForSome (own_of (rc_value keys)) (λ key. FitsKey key own) },
    ghost partition_fits: { FitsKey (partition_of (rc_value keys)) partition },
}

/// Whether the cookies of any cell stay as they are.
pub fn is_nothing(becomes: &Becomes) -> bool
    ensures nothing { IsTrue result → (kind : CellKind) (cookies : Cookies)
        → becomes_of kind becomes.now cookies ≡ cookies }
{
    match becomes {
        Becomes::Marked { places, new, .. } => places.is_empty() && new.is_none(),
        Becomes::Stored(_) => false,
    }
}

/// Writes to a jar what its cookies become. Takes no memory.
pub fn write(jar: &mut Jar, becomes: Becomes)
    ensures cookies { jar.new.cookies ≡ becomes_of jar.old.kind becomes jar.old.cookies }
    ensures kind { jar.new.kind ≡ kind_after becomes jar.old.kind }
{
    match becomes {
        Becomes::Marked { places, now, new } => {
            jar.mark(&places, now);
            replace_if(jar, new);
        }
        Becomes::Stored(stored) => *jar = stored,
    }
}

// Puts a cookie in its place, if there is one.
fn replace_if(jar: &mut Jar, new: Option<Replacement>)
    ensures cookies { jar.new.cookies ≡ replaced_in jar.old.kind new jar.old.cookies }
    ensures kind { jar.new.kind ≡ jar.old.kind }
{
    if let Some(Replacement { place, cookie }) = new {
        replace_in(jar, place, cookie);
    }
}
