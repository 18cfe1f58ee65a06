//! Requests: which use of cookies each kind is, and what is prepared for it.
ghost use Rattle.std.specs.Prelude.{◌≡◌, ◌≤◌, IfOk, IsTrue, OnOk, Some, false, map, true};
ghost use Rattle.origin_site.specs.Plain.{plain_address, plain_site};
ghost use Rattle.origin_site.specs.Site.{PlainSite, site_of_address};
ghost use Rattle.storage_key.specs.Plain.{plain_context, plain_key};
ghost use Rattle.frame_tree.specs.Document.{PlainDocument};
ghost use Rattle.frame_tree.specs.Keys.{is_first_at};
ghost use Rattle.frame_tree.specs.Tree.{chain_of, document_of, has_frame, top_site};
ghost use Rattle.script_actions.specs.Plain.{head_field_of};
ghost use Rattle.agent_model.specs.CookieUses as spec;
ghost use Rattle.agent_model.specs.Documents.{Keyed};
ghost use Rattle.agent_model.specs.Lines as lines;
ghost use Rattle.web_cookies.specs.Uses.{plain_use};
ghost use Rattle.agent_memory.specs.Lines.{is_there};
ghost use Rattle.agent_memory.specs.Requests.{IsPrepared, starter_in};
ghost use Rattle.row_changes.specs.Appended.{IsFront};
ghost use Rattle.agent_memory.specs.Writes.{AreRows};

use crate::body::Body;
use crate::holdings::open_tab;
use agent_base::{Label, NoMemory};
use frame_tree::{Tab, site_of_address};
use live_state::Live;
use origin_site::{Address, Site, domain_of, same_site};
use script_actions::{HeadField, Method};
use storage_key::{Context, StorageKey};
use suffix_list::SuffixList;
use web_cookies::{CookieUse, Cookies, LineInput, Prepared};

/// A load, or another request.
#[derive(Clone, Copy, Debug)]
pub struct Load<'a> {
    pub url: &'a Address,
    pub method: Method,
    /// The fields of the response's head.
    pub head: &'a [HeadField],
    /// Whether storage access is granted to it.
    pub granted: bool,
}

/// Prepares the load of a top document at a site. A page of the starter's tab starts it, or the
/// user.
pub fn prepare_top(
    live: &Live,
    cookies: &mut Cookies,
    input: &LineInput<'_>,
    starter: Option<u16>,
    target: &Site,
    load: &Load<'_>,
) -> Result<Prepared, NoMemory>
    requires starter { is_there starter live.now.tabs ≡ true }
    ensures prepared { let same_site = lines.is_same_site (starter_in starter live.now.tabs)
        (plain_site target.now) in
        let how = spec.top_use (plain_site target.now) (plain_address load.now.url.now)
        load.now.method same_site in
        let fields = map head_field_of load.now.head.now in
        IsPrepared input.now.list.now.rules input.now.clock how fields cookies.old cookies.new
        result }
{
    let how = CookieUse {
        url: load.url,
        top: target,
        context: Context {
            first: true,
            bit: false,
        },
        same_site: is_started_at(live, starter, target),
        top_load: true,
        safe: is_safe(load.method),
        script: false,
        granted: false,
    };
    cookies.prepare(input, &how, load.head)
}

// Whether the user starts a load, or a page of this site.
fn is_started_at(live: &Live, starter: Option<u16>, target: &Site) -> bool
    requires { is_there starter live.now.tabs ≡ true }
    ensures { let who = starter_in starter live.now.tabs in
        result ≡ lines.is_same_site who (plain_site target.now) }
{
    match starter {
        Some(tab) => same_site(open_tab(live, tab).top_site(), target),
        None => true,
    }
}

/// Prepares a request below a document, which starts it: a request of that document, or the load of
/// a frame that is added to it.
pub fn prepare_below(
    tab: &Tab,
    cookies: &mut Cookies,
    input: &LineInput<'_>,
    frame: u8,
    load: &Load<'_>,
) -> Result<Prepared, NoMemory>
    requires there { has_frame frame tab.now ≡ true }
    ensures prepared { (site : PlainSite) → top_site tab.now ≡ Some site
        → let chain = chain_of frame tab.now in
        let how = spec.request_use input.now.list.now.rules site chain chain
        (plain_address load.now.url.now) load.now.method load.now.granted in
        let fields = map head_field_of load.now.head.now in
        IsPrepared input.now.list.now.rules input.now.clock how fields cookies.old cookies.new
        result }
{
    let first = is_first(tab, input, frame, load.url)?;
    let context = Context { first, bit: !first };
    let how = request_use(tab, load, context, first);
    cookies.prepare(input, &how, load.head)
}

// Whether a request below a document is first party. Where it is one of the top-level site, that is
// compared and no other is made.
fn is_first(tab: &Tab, input: &LineInput<'_>, frame: u8, url: &Address) -> Result<bool, NoMemory>
    ensures { IfOk result (λ first. first ≡ is_first_at frame tab.now
        (site_of_address input.now.list.now.rules (plain_address url.now))) }
{
    let top = tab.top_site();
    if is_at(top, input.list, url) {
        return Ok(tab.first_party(frame, top));
    }
    let target = site_of_address(input.alloc, url, input.list)?;
    Ok(tab.first_party(frame, &target))
}

// Whether an address is one of a site.
fn is_at(site: &Site, list: &SuffixList, url: &Address) -> bool
    ensures { IsTrue result
        → plain_site site.now ≡ site_of_address list.now.rules (plain_address url.now) }
{
    site.https == url.https && site.host.as_str() == domain_of(url.host.as_str(), url.ip, list)
}

/// Prepares the load of a frame that goes to another address. Its own document starts it, or its
/// parent's.
pub fn prepare_nav(
    tab: &Tab,
    cookies: &mut Cookies,
    input: &LineInput<'_>,
    frame: u8,
    by_self: bool,
    load: &Load<'_>,
) -> Result<Prepared, NoMemory>
    requires there { has_frame frame tab.now ≡ true }
    ensures prepared { (site : PlainSite) → top_site tab.now ≡ Some site
        → let how = spec.request_use input.now.list.now.rules site (spec.chain_above frame tab.now)
        (spec.starter_of by_self frame tab.now) (plain_address load.now.url.now)
        load.now.method load.now.granted in
        let fields = map head_field_of load.now.head.now in
        IsPrepared input.now.list.now.rules input.now.clock how fields cookies.old cookies.new
        result }
{
    let target = site_of_address(input.alloc, load.url, input.list)?;
    let context = tab.context_above(frame, &target)?;
    let same_site = if by_self {
        tab.first_party(frame, &target)
    } else {
        context.first
    };
    let how = request_use(tab, load, context, same_site);
    cookies.prepare(input, &how, load.head)
}

// The use of a request in a tab.
fn request_use<'a>(
    tab: &'a Tab,
    load: &Load<'a>,
    context: Context,
    same_site: bool,
) -> CookieUse<'a>
    ensures { (site : PlainSite) → top_site tab.now ≡ Some site
        → plain_use result ≡ record {
          url = plain_address load.now.url.now;
          top = site;
          context = plain_context context;
          same_site = same_site;
          top_load = false;
          safe = spec.is_safe load.now.method;
          script = false;
          granted = load.now.granted;
        } }
{
    CookieUse {
        url: load.url,
        top: tab.top_site(),
        context,
        same_site,
        top_load: false,
        safe: is_safe(load.method),
        script: false,
        granted: load.granted,
    }
}

/// The use of a script of a document that has a storage key.
pub fn script_use<'a>(tab: &'a Tab, at: Label, key: &StorageKey) -> CookieUse<'a>
    requires there { has_frame at.frame tab.now ≡ true }
    ensures { (document : PlainDocument) (site : PlainSite)
        → document_of at.frame tab.now ≡ Some document → top_site tab.now ≡ Some site
        → let own : Keyed = record { at = at; document = document; key = plain_key key.now } in
        plain_use result ≡ spec.script_use site own }
{
    match tab.document(at.frame) {
        Some(document) => CookieUse {
            url: &document.address,
            top: tab.top_site(),
            context: Context {
                first: !key.bit,
                bit: key.bit,
            },
            same_site: !key.bit,
            top_load: false,
            safe: true,
            script: true,
            granted: document.flag,
        },
        None => unreachable!(),
    }
}

/// Writes the row changes of what was prepared.
pub fn write_rows(prepared: &Prepared, body: &mut Body) -> Result<(), NoMemory>
    ensures rows { OnOk result (AreRows prepared.now body.old.bytes body.new.bytes) }
    ensures front { IsFront body.old.bytes body.new.bytes }
    ensures limit { body.new.limit ≡ body.old.limit }
{
    body.append_all(prepared.rows())
}

// Whether a method is safe.
fn is_safe(method: Method) -> bool
    ensures { result ≡ spec.is_safe method }
{
    matches!(method, Method::Get | Method::Head | Method::Options)
}
