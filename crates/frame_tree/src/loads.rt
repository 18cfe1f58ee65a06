//! What is loaded for a change of a tab, before anything of the tab is changed.
ghost use Rattle.std.specs.Prelude.{◌≡◌, ◌≢◌, ◌++◌, ◌∷◌, [], Err, IfOk, false, true};
ghost use Rattle.agent_base.specs.Answers.{Answers};
ghost use Rattle.origin_site.specs.Plain.{plain_address};
ghost use Rattle.frame_tree.specs.Calls.{added, navigated, with_document, without_below};
ghost use Rattle.frame_tree.specs.Kept.{KeepsChain, KeepsChainAt, kept_document, kept_frame};
ghost use Rattle.frame_tree.specs.Plain.{plain_document, plain_frame, plain_sandbox};
ghost use Rattle.frame_tree.specs.Tree.{has_frame};

use crate::frames::{Frame, bit_of, frame_of, has_frame};
use crate::keys::Loaded;
use crate::{Sandbox, Tab, TreeFault};
use origin_site::Address;
use suffix_list::SuffixList;

impl Tab {
    // A frame that may be added below a parent.
    pub(crate) fn below(
        &self,
        parent: u8,
        frame: u8,
        address: Address,
        sandbox: Sandbox,
        deny: bool,
        list: &SuffixList,
    ) -> Result<Frame, TreeFault>
        ensures answer { Answers (λ fresh. self.now ++ plain_frame fresh ∷ []) TreeFault.NoMemory
            (added list.now.rules parent frame (plain_address address) (plain_sandbox sandbox) deny
            self.now) result }
        ensures decided { (why : TreeFault) → added list.now.rules parent frame
            (plain_address address) (plain_sandbox sandbox) deny self.now ≡ Err why
            → result ≡ Err why }
        ensures fresh { IfOk result (λ fresh. has_frame fresh.frame self.now ≡ false) }
        ensures parent { IfOk result (λ fresh. has_frame fresh.parent self.now ≡ true) }
        ensures kept { IfOk result (λ fresh. KeepsChain (self.now ++ plain_frame fresh ∷ [])
            (kept_frame fresh)) }
    {
        let Some(above) = frame_of(self.frames.as_slice(), parent) else {
            return Err(TreeFault::NoFrame);
        };
        if has_frame(self.frames.as_slice(), frame) {
            return Err(TreeFault::FrameExists);
        }
        let document = &above.loaded.document;
        let document = document.load_below(self.alloc, address, sandbox, deny, list)?;
        Ok(Frame {
            frame,
            parent,
            loaded: Loaded::below(self.alloc, &self.top, above.loaded.bit, document)?,
        })
    }

    // The document that a navigation of a frame puts in the place of its present one.
    pub(crate) fn loaded_instead(
        &self,
        frame: u8,
        address: Address,
        keep_flag: bool,
        list: &SuffixList,
    ) -> Result<Loaded, TreeFault>
        requires { frame ≢ 0 }
        ensures answer { Answers
            (λ made. with_document frame (λ _. plain_document made.document)
            (without_below frame self.now))
            TreeFault.NoMemory
            (navigated list.now.rules frame (plain_address address) keep_flag self.now) result }
        ensures decided { (why : TreeFault) → navigated list.now.rules frame
            (plain_address address) keep_flag self.now ≡ Err why → result ≡ Err why }
        ensures there { IfOk result (λ made. has_frame frame self.now ≡ true) }
        ensures kept { IfOk result (λ made. KeepsChainAt frame self.now (kept_document made)) }
    {
        let Some(before) = frame_of(self.frames.as_slice(), frame) else {
            return Err(TreeFault::NoFrame);
        };
        let document = &before.loaded.document;
        let document = document.load_instead(self.alloc, address, keep_flag, list)?;
        let above = bit_of(self.frames.as_slice(), before.parent);
        Ok(Loaded::below(self.alloc, &self.top, above, document)?)
    }
}
