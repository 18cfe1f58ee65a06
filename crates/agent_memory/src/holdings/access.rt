//! Storage access of documents.
ghost use Rattle.std.specs.Prelude.{◌≡◌, ◌≤◌, ◌<◌, IfOk, IfSome, List, None, Ok, Some, true};
ghost use Rattle.std.specs.Option.{option_map};
ghost use Rattle.suffix_list.specs.Suffix.{Rule};
ghost use Rattle.origin_site.specs.Plain.{plain_site};
ghost use Rattle.access_grants.specs.Plain.{plain_grant};
ghost use Rattle.frame_tree.specs.declared.tab.TreeFault.{TreeFault};
ghost use Rattle.frame_tree.specs.Plain.{plain_document};
ghost use Rattle.frame_tree.specs.Tree.{document_of};
ghost use Rattle.live_state.specs.FramesInPlace.{ChangesTab, frames_at, requested};
ghost use Rattle.live_state.specs.Queues.{has_document};
ghost use Rattle.live_state.specs.Tabs.{is_open};
ghost use Rattle.agent_model.specs.StorageAccess.{access_facts, answer_of, decision_word};
ghost use Rattle.agent_model.specs.StorageAccess.{embedded_site, refusal_word, request_access};
ghost use Rattle.agent_model.specs.StorageAccess.{tell_access};
ghost use Rattle.agent_memory.specs.Access.{change_kept, row_of, rows_kept};
ghost use Rattle.agent_memory.specs.Actions.{ActsIn};
ghost use Rattle.row_changes.specs.Appended.{Appends};
ghost use Rattle.agent_memory.specs.Writes.{WritesIn};

use crate::body::Body;
use crate::holdings::{Holdings, open_tab};
use crate::replies::answer;
use access_grants::{Answer, Decision, Facts, GrantRow, Grants, Outcome, Permission, Refusal};
use agent_base::{Label, NoMemory, Seconds};
use frame_tree::{Document, Tab, site_of_address};
use live_state::Live;
use origin_site::Site;
use reply_lines::ReplyBody;
use row_changes::ChangeRef;
use script_actions::Prompt;
use std::alloc::Global;
use web_cookies::LineInput;

impl Holdings {
    /// Answers whether a document has storage access.
    pub fn has(&self, input: &LineInput<'_>, at: Label) -> Result<ReplyBody, NoMemory>
        requires open { is_open at.tab self.now.live.tabs ≡ true }
        ensures acts { ActsIn at.tab
            (λ site. tell_access input.now.list.now.rules input.now.clock at)
            self.now self.now result }
    {
        let tab = self.tab(at.tab);
        let Some(document) = tab.document(at.frame) else {
            return Ok(answer("no-frame"));
        };
        let site = site_of_address(input.alloc, &document.address, input.list)?;
        let facts = facts_of(tab, at.frame, input.clock, document, &site);
        Ok(ReplyBody::Truth {
            value: facts.has_access(),
        })
    }

    /// A document requests storage access, and the user answers this to the prompt.
    ///
    /// The memory of a permission that is kept is taken, and its row change is written, before
    /// anything changes.
    pub fn request(
        &mut self,
        input: &LineInput<'_>,
        at: Label,
        prompt: Prompt,
        body: &mut Body,
    ) -> Result<ReplyBody, NoMemory>
        requires open { is_open at.tab self.old.live.tabs ≡ true }
        ensures acts { ActsIn at.tab
            (λ site. request_access input.now.list.now.rules input.now.clock site at prompt)
            self.old self.new result }
        ensures changes { WritesIn at.tab
            (λ site. request_access input.now.list.now.rules input.now.clock site at prompt)
            self.old body.old.bytes body.new.bytes result }
        ensures limit { body.new.limit ≡ body.old.limit }
    {
        let tab = open_tab(&self.live, at.tab);
        let Some(document) = tab.document(at.frame) else {
            return Ok(answer("no-frame"));
        };
        let top = tab.top_site();
        let site = site_of_address(input.alloc, &document.address, input.list)?;
        let facts = facts_of(tab, at.frame, input.clock, document, &site);
        let said = answer_of(prompt);
        let outcome = self
            .grants
            .request(top, &site, &facts, said, input.clock.signed());
        let row = prepare_row(&mut self.grants, input.alloc, top, &site, outcome.kept)?;
        write_row(&row, body)?;
        finish(&mut self.live, at, outcome);
        keep(&mut self.grants, row);
        Ok(answer(decision_word(outcome.decision)))
    }
}

// What the answers go by for the document of a frame, which is of this site.
fn facts_of(tab: &Tab, frame: u8, now: Seconds, document: &Document, site: &Site) -> Facts
    requires document { document_of frame tab.now ≡ Some (plain_document document.now) }
    ensures facts { (rules : List Rule)
        → plain_site site.now ≡ embedded_site rules (plain_document document.now)
        → result ≡ access_facts rules now frame tab.now (plain_document document.now) }
{
    Facts {
        opaque: document.origin.is_none(),
        secure: tab.https_chain(frame),
        deny: document.deny,
        sandbox_allows: document.sandbox.storage_access,
        first: tab.first_party(frame, site),
        flag: document.flag,
        active: tab.is_active(frame, now.signed()),
    }
}

// The row of what is kept, if anything is, and the room for it.
fn prepare_row(
    grants: &mut Grants,
    alloc: Global,
    top: &Site,
    site: &Site,
    kept: Option<Permission>,
) -> Result<Option<GrantRow>, NoMemory>
    ensures row { let own = row_of (plain_site top.now) (plain_site site.now) in
        IfOk result (λ row. option_map plain_grant row ≡ option_map own kept) }
    ensures room { IfOk result (λ row. IfSome row (λ _. 0 < grants.new.spare)) }
    ensures same { grants.new.rows ≡ grants.old.rows }
{
    let Some(permission) = kept else {
        return Ok(None);
    };
    let row = GrantRow::new(alloc, top, site, permission)?;
    grants.reserve(1)?;
    Ok(Some(row))
}

// Writes the row that is kept, if there is one.
fn write_row(row: &Option<GrantRow>, body: &mut Body) -> Result<(), NoMemory>
    ensures changes { Appends (change_kept (option_map plain_grant row.now))
        body.old.bytes body.new.bytes result }
    ensures limit { body.new.limit ≡ body.old.limit }
{
    match row {
        Some(row) => body.append(ChangeRef::Grant { row }),
        None => Ok(()),
    }
}

// Keeps a row, if there is one.
fn keep(grants: &mut Grants, row: Option<GrantRow>)
    requires room { IfSome row (λ _. 0 < grants.old.spare) }
    ensures rows { grants.new.rows ≡ rows_kept (option_map plain_grant row) grants.old.rows }
{
    let Some(row) = row else {
        return;
    };
    grants.keep(row);
}

// Ends the request of a document that is there.
fn finish(live: &mut Live, at: Label, outcome: Outcome)
    requires there { has_document live.old.tabs at ≡ true }
    ensures frames { let before = frames_at at.tab live.old.tabs in
        let after = requested outcome.sets_flag outcome.consumes at.frame before in
        frames_at at.tab live.new.tabs ≡ after }
    ensures changes { ChangesTab {E = TreeFault} at.tab None (Ok result) live.old live.new }
{
    let Ok(()) = live.finish_request(at, outcome.sets_flag, outcome.consumes) else {
        unreachable!()
    };
}

// The answer of the prompt.
fn answer_of(prompt: Prompt) -> Answer
    ensures { result ≡ answer_of prompt }
{
    match prompt {
        Prompt::Grant => Answer::Grant,
        Prompt::Deny => Answer::Deny,
        Prompt::Dismiss => Answer::Dismiss,
    }
}

// The word of a decision.
fn decision_word(decision: Decision) -> &'static str
    ensures { result.now ≡ decision_word decision }
{
    match decision {
        Decision::Granted { .. } => "granted",
        Decision::Refused(why) => refusal_word(why),
    }
}

fn refusal_word(why: Refusal) -> &'static str
    ensures { result.now ≡ refusal_word why }
{
    match why {
        Refusal::Opaque => "opaque",
        Refusal::Insecure => "insecure",
        Refusal::Policy => "policy",
        Refusal::Sandbox => "sandbox",
        Refusal::Denied => "denied",
        Refusal::NoActivation => "no-activation",
        Refusal::DeniedNow => "denied-now",
        Refusal::Dismissed => "dismissed",
    }
}
