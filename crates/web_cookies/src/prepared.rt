//! What was prepared for a request or for a script.
ghost use Rattle.std.specs.Prelude.{◌≡◌, ◌≤◌, ℕ, List, Some, map};
ghost use Rattle.std.specs.Option.{ForSome};
ghost use Rattle.std.specs.Rc.{rc_value};
ghost use Rattle.partition_limits.specs.declared.tally.CellKind.TheVariants as kind;
ghost use Rattle.suffix_list.specs.Suffix.{Rule};
ghost use Rattle.script_actions.specs.Action as script;
ghost use Rattle.agent_model.specs.CookieUse as model;
ghost use Rattle.agent_model.specs.CookieStore.{cookie_texts, store_text, store_texts};
ghost use Rattle.agent_model.specs.Cookies.{request, set_cookie_by};
ghost use Rattle.web_cookies.specs.Stored.{Entries};
ghost use Rattle.web_cookies.specs.Cells.{kind_of};
ghost use Rattle.web_cookies.specs.Keys.{own_of, partition_of};
ghost use Rattle.web_cookies.specs.Prepared.{AreReady, Prepares};
ghost use Rattle.web_cookies.specs.CellsOfUse.{AreKeysOf, HasKey, IsSending, LeaveBoth, found};
ghost use Rattle.web_cookies.specs.InPlace.{AreInPlace, IsInPlace};

use crate::both::BothJars;
use crate::change::{Becomes, BothChanges};
use crate::in_place::InPlace;
use crate::keys::UseKeys;
use crate::sending::{Sending, header_value};
use agent_base::Seconds;
use reply_lines::ReplyBody;
use row_changes::Change;
use std::alloc::Global;
use std::rc::Rc;

/// What a request or a script makes of cookies, with all memory that it takes. It is for the
/// cookies as they stood when it was prepared.
#[derive(Debug, Drop)]
pub struct Prepared {
    pub(crate) cells: BothChanges,
    pub(crate) rows: Vec<Change>,
    pub(crate) body: ReplyBody,
}

impl Prepared {
    /// The row changes of the persistent cookies, in their order.
    pub fn rows(&self) -> &[Change]
        ensures value { result.now ≡ self.now.rows.items }
    {
        self.rows.as_slice()
    }
}

/// The cookies that go out are marked in their cells, and then texts are stored in place.
pub fn marking(
    now: Seconds,
    keys: Rc<UseKeys>,
    sending: Sending,
    stored: InPlace,
    words: Vec<&'static str>,
) -> Prepared
    ensures prepared { (rules : List Rule) (how : model.CookieUse) (head : List script.HeadField)
        (entries : Entries) → AreKeysOf rules how (rc_value keys)
        → IsSending rules now how entries sending
        → AreInPlace (λ both. store_texts rules now how both (cookie_texts head))
        (found rules how entries) stored (map (λ word. word.now) words.entry.items)
        → Prepares (request rules now how head) entries result }
{
    let Sending {
        own_places,
        partition_places,
        text,
    } = sending;
    let cookie = header_value(&own_places, &partition_places, text);
    let moment = now.signed();
    Prepared {
        cells: BothChanges {
            keys,
            own: Becomes::Marked {
                places: own_places,
                now: moment,
                new: stored.own,
            },
            partition: Becomes::Marked {
                places: partition_places,
                now: moment,
                new: stored.partition,
            },
        },
        rows: stored.rows,
        body: ReplyBody::Load { cookie, set: words },
    }
}

/// A text of a script is stored in place, and no cookie is marked.
pub fn setting(alloc: Global, keys: Rc<UseKeys>, stored: InPlace, word: &'static str) -> Prepared
    ensures prepared { (rules : List Rule) (now : ℕ) (how : model.CookieUse) (text : List ℕ)
        (entries : Entries) → AreKeysOf rules how (rc_value keys)
        → IsInPlace (λ both. store_text rules now how both text) (found rules how entries) stored
        word.now → Prepares (set_cookie_by rules now how text) entries result }
{
    Prepared {
        cells: BothChanges {
            keys,
            own: Becomes::Marked {
                places: Vec::new(alloc),
                now: 0,
                new: stored.own,
            },
            partition: Becomes::Marked {
                places: Vec::new(alloc),
                now: 0,
                new: stored.partition,
            },
        },
        rows: stored.rows,
        body: ReplyBody::SetOne { set: word },
    }
}

/// Both cells become those of the jars, by these row changes.
pub fn storing(keys: Rc<UseKeys>, both: BothJars, rows: Vec<Change>, body: ReplyBody) -> Prepared
    requires own { ForSome (own_of (rc_value keys)) (λ key. kind_of key ≡ kind.Own) }
    requires partition { kind_of (partition_of (rc_value keys)) ≡ kind.Partition }
    ensures left { (rules : List Rule) (how : model.CookieUse) (entries : Entries)
        → AreKeysOf rules how (rc_value keys) → LeaveBoth rules how both entries result.cells }
    ensures ready { (entries : Entries) → HasKey (own_of (rc_value keys)) entries
        → HasKey (Some (partition_of (rc_value keys))) entries → AreReady result.cells entries }
    ensures rows { result.rows ≡ rows }
    ensures body { result.body ≡ body }
{
    let BothJars { own, partition } = both;
    Prepared {
        cells: BothChanges {
            keys,
            own: Becomes::Stored(own),
            partition: Becomes::Stored(partition),
        },
        rows,
        body,
    }
}
