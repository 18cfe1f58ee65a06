//! Actions on the frames of a tab.
ghost use Rattle.std.specs.Prelude.{◌≡◌, ◌≤◌, ◌==◌, ◌&&◌, not, Err, None, OnErr, OnOk, Some, map, nat_lt, true};
ghost use Rattle.std.specs.Prelude.{option_map, string_bytes, take};
ghost use Rattle.agent_base.specs.Answers.{Answers};
ghost use Rattle.origin_site.specs.Plain.{plain_address};
ghost use Rattle.frame_tree.specs.Calls.{navigated};
ghost use Rattle.frame_tree.specs.Plain.{plain_sandbox};
ghost use Rattle.frame_tree.specs.Sandbox.{sandbox_of};
ghost use Rattle.frame_tree.specs.Tree.{has_frame};
ghost use Rattle.live_state.specs.FramesInPlace.{ChangesTab, frames_at};
ghost use Rattle.live_state.specs.Tabs.{is_open};
ghost use Rattle.script_actions.specs.Plain.{head_field_of};
ghost use Rattle.reply_lines.specs.Plain.{body_of};
ghost use Rattle.reply_lines.specs.Reply.{PlainBody};
ghost use Rattle.agent_model.specs.Frames.{add_frame, click, frames_added, frames_clicked};
ghost use Rattle.agent_model.specs.Frames.{frames_removed, navigate_frame, remove_frame};
ghost use Rattle.agent_model.specs.Frames.{where_below};
ghost use Rattle.agent_memory.specs.FrameTrees.{most_frames};
ghost use Rattle.agent_memory.specs.Actions.{ActsIn, Answered};
ghost use Rattle.agent_memory.specs.Requests.{IsPerformed};
ghost use Rattle.agent_memory.specs.Writes.{WritesIn};

use crate::body::Body;
use crate::holdings::requests::{Load, prepare_below, prepare_nav, write_rows};
use crate::holdings::{Holdings, has_frame, open_tab};
use crate::replies::answer;
use agent_base::{Label, NoMemory, Seconds};
use frame_tree::{Sandbox, Tab, TreeFault};
use live_state::Live;
use origin_site::Address;
use reply_lines::ReplyBody;
use script_actions::{HeadField, Method};
use web_cookies::{Cookies, LineInput, Prepared, is_granted_nav};

impl Holdings {
    /// Adds a frame to a tab. It loads its address: a request below its parent.
    pub fn add_frame(
        &mut self,
        input: &LineInput<'_>,
        at: Label,
        parent: u8,
        url: &Address,
        sandbox: &Option<Box<String>>,
        deny: bool,
        head: &[HeadField],
        body: &mut Body,
    ) -> Result<ReplyBody, NoMemory>
        requires open { is_open at.tab self.old.live.tabs ≡ true }
        ensures acts { let address = plain_address url.now in
            let sandboxed = option_map (λ text. string_bytes text.value) sandbox.now in
            let fields = map head_field_of head.now in
            ActsIn at.tab (λ site. add_frame input.now.list.now.rules input.now.clock site at parent
            address sandboxed deny fields) self.old self.new result }
        ensures changes { let address = plain_address url.now in
            let sandboxed = option_map (λ text. string_bytes text.value) sandbox.now in
            let fields = map head_field_of head.now in
            WritesIn at.tab (λ site. add_frame input.now.list.now.rules input.now.clock site at
            parent address sandboxed deny fields) self.old body.old.bytes body.new.bytes result }
        ensures limit { body.new.limit ≡ body.old.limit }
    {
        let tab = open_tab(&self.live, at.tab);
        if !has_frame(tab, parent) {
            return Ok(answer("no-frame"));
        }
        if has_frame(tab, at.frame) {
            return Ok(answer("frame-exists"));
        }
        let cookies = &mut self.cookies;
        let load = Load {
            url,
            method: Method::Get,
            head,
            granted: false,
        };
        let prepared = prepare_below(tab, cookies, input, parent, &load)?;
        let before = body.len();
        write_rows(&prepared, body)?;
        let done = add(&mut self.live, input, at, parent, url, sandbox, deny);
        cut_refused(&done, body, before);
        load_answer(&mut self.cookies, done, prepared)
    }

    /// Navigates a frame of a tab, and removes the frames below it. Its load is a request below its
    /// parent, which its own document starts or its parent's. Where access is granted to the load,
    /// the document that it brings has storage access too.
    pub fn navigate_frame(
        &mut self,
        input: &LineInput<'_>,
        at: Label,
        url: &Address,
        by_self: bool,
        method: Method,
        head: &[HeadField],
        body: &mut Body,
    ) -> Result<ReplyBody, NoMemory>
        requires open { is_open at.tab self.old.live.tabs ≡ true }
        ensures acts { let address = plain_address url.now in
            let fields = map head_field_of head.now in
            ActsIn at.tab (λ site. navigate_frame input.now.list.now.rules input.now.clock site at
            address by_self method fields) self.old self.new result }
        ensures changes { let address = plain_address url.now in
            let fields = map head_field_of head.now in
            WritesIn at.tab (λ site. navigate_frame input.now.list.now.rules input.now.clock site at
            address by_self method fields)
            self.old body.old.bytes body.new.bytes result }
        ensures limit { body.new.limit ≡ body.old.limit }
    {
        let tab = open_tab(&self.live, at.tab);
        if !is_below(tab, at.frame) {
            return Ok(answer("no-frame"));
        }
        let granted = is_granted_nav(input.alloc, tab, at.frame, url, by_self)?;
        let cookies = &mut self.cookies;
        let load = Load {
            url,
            method,
            head,
            granted,
        };
        let prepared = prepare_nav(tab, cookies, input, at.frame, by_self, &load)?;
        let before = body.len();
        write_rows(&prepared, body)?;
        let done = navigate(&mut self.live, input, at, url, granted);
        cut_refused(&done, body, before);
        load_answer(&mut self.cookies, done, prepared)
    }

    /// Removes a frame of a tab, and the frames below it.
    pub fn remove_frame(&mut self, at: Label) -> Result<ReplyBody, NoMemory>
        requires open { is_open at.tab self.old.live.tabs ≡ true }
        ensures acts { ActsIn at.tab (λ site. remove_frame at) self.old self.new result }
    {
        let done = remove(&mut self.live, at);
        frames_answer(done, answer("ok"))
    }

    /// Activates a document, as a click does.
    pub fn click(&mut self, at: Label, now: Seconds) -> Result<ReplyBody, NoMemory>
        requires open { is_open at.tab self.old.live.tabs ≡ true }
        ensures acts { ActsIn at.tab (λ site. click now at) self.old self.new result }
    {
        let done = click(&mut self.live, at, now);
        frames_answer(done, answer("ok"))
    }
}

// Whether a frame below the top is there.
fn is_below(tab: &Tab, frame: u8) -> bool
    ensures below { result ≡ (not (frame == 0) && has_frame frame tab.now) }
{
    frame != 0 && has_frame(tab, frame)
}

// Answers this where an action on frames was done, or what refused it.
fn frames_answer(done: Result<(), TreeFault>, body: ReplyBody) -> Result<ReplyBody, NoMemory>
    ensures answered { Answered done (body_of body) result }
{
    match done {
        Ok(()) => Ok(body),
        Err(fault) => refused_by(fault),
    }
}

// Cuts off the row changes of a load that the frames refuse.
fn cut_refused(done: &Result<(), TreeFault>, body: &mut Body, before: usize)
    ensures kept { OnOk done.now (body.new.bytes ≡ body.old.bytes) }
    ensures cut { OnErr done.now (body.new.bytes ≡ take before body.old.bytes) }
    ensures limit { body.new.limit ≡ body.old.limit }
{
    if done.is_err() {
        body.truncate(before);
    }
}

// Performs what was prepared for the load of a frame, where the frames have it, or answers what
// refused it.
fn load_answer(
    cookies: &mut Cookies,
    done: Result<(), TreeFault>,
    prepared: Prepared,
) -> Result<ReplyBody, NoMemory>
    ensures performed { IsPerformed done prepared cookies.old cookies.new result }
{
    match done {
        Ok(()) => Ok(cookies.perform(prepared)),
        Err(why) => refused_by(why),
    }
}

// Answers what refused an action on frames.
fn refused_by(why: TreeFault) -> Result<ReplyBody, NoMemory>
    ensures answered { (body : PlainBody) → Answered (Err why) body result }
{
    match why {
        TreeFault::NoFrame => Ok(answer("no-frame")),
        TreeFault::FrameExists => Ok(answer("frame-exists")),
        TreeFault::NoMemory => Err(NoMemory),
    }
}

// Adds a frame.
fn add(
    live: &mut Live,
    input: &LineInput<'_>,
    at: Label,
    parent: u8,
    url: &Address,
    sandbox: &Option<Box<String>>,
    deny: bool,
) -> Result<(), TreeFault>
    ensures answer { Answers (λ _. frames_at at.tab live.new.tabs) TreeFault.NoMemory
        (frames_added input.now.list.now.rules at parent (plain_address url.now)
        (option_map (λ text. string_bytes text.value) sandbox.now) deny
        (frames_at at.tab live.old.tabs)) result }
    ensures changes { ChangesTab at.tab None result live.old live.new }
    ensures number { nat_lt at.frame most_frames ≡ true }
{
    let url = url.copy(input.alloc)?;
    live.add_frame(at, parent, url, sandbox_of(sandbox), deny, input.list)
}

fn sandbox_of(text: &Option<Box<String>>) -> Sandbox
    ensures { plain_sandbox result
        ≡ sandbox_of (option_map (λ text. string_bytes text.value) text.now) }
{
    match text {
        Some(text) => Sandbox::read(Some(text.as_str())),
        None => Sandbox::read(None),
    }
}

// Navigates a frame below the top. Storage access is kept, or not.
fn navigate(
    live: &mut Live,
    input: &LineInput<'_>,
    at: Label,
    url: &Address,
    keep_flag: bool,
) -> Result<(), TreeFault>
    ensures answer { Answers (λ _. frames_at at.tab live.new.tabs) TreeFault.NoMemory
        (where_below at.frame (navigated input.now.list.now.rules at.frame
        (plain_address url.now) keep_flag (frames_at at.tab live.old.tabs))) result }
    ensures changes { ChangesTab at.tab (Some at.frame) result live.old live.new }
{
    if at.frame == 0 {
        return Err(TreeFault::NoFrame);
    }
    let url = url.copy(input.alloc)?;
    live.navigate_frame(at, url, keep_flag, input.list)
}

// Removes a frame below the top.
fn remove(live: &mut Live, at: Label) -> Result<(), TreeFault>
    ensures answer { Answers (λ _. frames_at at.tab live.new.tabs) TreeFault.NoMemory
        (frames_removed at (frames_at at.tab live.old.tabs)) result }
    ensures changes { ChangesTab at.tab None result live.old live.new }
{
    if at.frame == 0 {
        return Err(TreeFault::NoFrame);
    }
    match live.remove_frame(at) {
        Ok(()) => Ok(()),
        Err(_) => Err(TreeFault::NoFrame),
    }
}

// Activates a document.
fn click(live: &mut Live, at: Label, now: Seconds) -> Result<(), TreeFault>
    ensures answer { Answers (λ _. frames_at at.tab live.new.tabs) TreeFault.NoMemory
        (frames_clicked now at (frames_at at.tab live.old.tabs)) result }
    ensures changes { ChangesTab at.tab None result live.old live.new }
{
    match live.activate(at, now.signed()) {
        Ok(()) => Ok(()),
        Err(_) => Err(TreeFault::NoFrame),
    }
}
