//! Storing a cookie: it is planned, and then done without a refusal.
ghost use Rattle.std.specs.Prelude.{◌≡◌, ◌<◌, ◌≤◌, ◌+◌, ◌-◌, ◌⊎◌, true, false, is_some, IfOk};
ghost use Rattle.std.specs.Prelude.{IsErrOf, IsOk, IsTrue, OnErr, length, slice_get};
ghost use Rattle.std.specs.List.{remove};
ghost use Rattle.agent_base.specs.Answers.{Answers};
ghost use Rattle.setcookie_parse.specs.Plain.{plain_text};
ghost use Rattle.setcookie_parse.specs.SetCookie.{pair_limit};
ghost use Rattle.cookie_jar.specs.Cookie.{PlainCookie, copies, keeps_limits};
ghost use Rattle.cookie_jar.specs.Drops.{is_not_ascii_domain};
ghost use Rattle.cookie_jar.specs.NewCookie.{fresh};
ghost use Rattle.cookie_jar.specs.Performed.{CanPut, after_put, after_removals};
ghost use Rattle.cookie_jar.specs.Persistent.{apply_rows, persistent_part, rows_of_steps};
ghost use Rattle.cookie_jar.specs.Planned as spec;
ghost use Rattle.cookie_jar.specs.Steps.{after_steps, stored};
ghost use Rattle.cookie_jar.specs.Stored.{plain_stored};
ghost use Rattle.cookie_jar.specs.Plain.{plain_access, plain_cookie};

use crate::access::Access;
use crate::cause::CookieDrop;
use crate::cookie::Cookie;
use crate::jar::Jar;
use crate::plan::{Plan, StoredKind};
use crate::step::JarStep;
use agent_base::NoMemory;
use setcookie_parse::CookieText;
use std::alloc::Global;
use suffix_list::SuffixList;

/// What a store did, with its steps in the order in which they were done.
#[derive(Debug, Drop)]
pub struct Stored {
    pub kind: StoredKind,
    pub steps: Vec<JarStep>,
}

impl Stored {
    /// The same answer, over memory of its own.
    pub fn copy(&self, alloc: Global) -> Result<Stored, NoMemory>
        ensures same { IfOk result (λ s. plain_stored s ≡ plain_stored self.now) }
    {
        Ok(Stored {
            kind: self.kind,
            steps: Vec::from_slice(alloc, &self.steps)?,
        })
    }
}

impl Jar {
    /// Stores the cookie of a text in this cell, which is that of the destination, or an empty one
    /// if there is none. All memory is taken before the cell changes.
    pub fn store(
        &mut self,
        alloc: Global,
        text: &CookieText<'_>,
        access: &Access<'_>,
        list: &SuffixList,
        now: i64,
    ) -> Result<Stored, CookieDrop>
        requires pair { length text.now.name.now + length text.now.value.now ≤ pair_limit }
        ensures answer { Answers plain_stored CookieDrop.NoMemory (spec.stored_answer
            (spec.planned list.now.rules (plain_text text.now) (plain_access access.now)
            self.old.kind now self.old.cookies)) result }
        ensures memory { IsErrOf result CookieDrop.NoMemory → (is_some text.now.domain ≡ true)
            × (is_not_ascii_domain (plain_text text.now) ≡ false)
            ⊎ IsOk (spec.planned list.now.rules (plain_text text.now) (plain_access access.now)
            self.old.kind now self.old.cookies) }
        ensures stored { IfOk result (λ s. self.new.cookies ≡ stored self.old.kind now
            (fresh list.now.rules (plain_text text.now) (plain_access access.now) now
            self.old.cookies) self.old.cookies) }
        ensures steps { IfOk result (λ s. self.new.cookies ≡ after_steps
            (fresh list.now.rules (plain_text text.now) (plain_access access.now) now
            self.old.cookies) self.old.cookies s.steps.items) }
        ensures persistent { IfOk result (λ s. persistent_part self.new.cookies
            ≡ apply_rows self.old.kind (persistent_part self.old.cookies) (rows_of_steps
            (fresh list.now.rules (plain_text text.now) (plain_access access.now) now
            self.old.cookies) s.steps.items)) }
        ensures within { IsTrue (keeps_limits self.new.kind self.new.cookies) }
        ensures distinct { (c : PlainCookie) → copies c self.new.cookies ≤ 1 }
        ensures kind { self.new.kind ≡ self.old.kind }
        ensures unchanged { OnErr result (self.new.cookies ≡ self.old.cookies) }
    {
        let _ = &self.cookies;
        let plan = self.plan(alloc, text, access, list, now)?;
        self.reserve(1)?;
        Ok(self.perform(plan))
    }

    /// Does what was planned for this cell as it stands, in the room for one cookie. Takes no
    /// memory. So the plan of a further text is made after this one was done.
    pub fn perform(&mut self, plan: Plan) -> Stored
        requires room { 0 < self.old.spare }
        requires fit { spec.IsPlanFor self.old plan }
        ensures answer { plain_stored result ≡ spec.stored_of plan }
        ensures steps { self.new.cookies ≡ after_steps plan.fresh self.old.cookies plan.steps }
        ensures persistent { persistent_part self.new.cookies ≡ apply_rows self.old.kind
            (persistent_part self.old.cookies) (rows_of_steps plan.fresh plan.steps) }
        ensures kind { self.new.kind ≡ self.old.kind }
    {
        let Plan { kind, steps, fresh } = plan;
        self.remove_all(&steps);
        self.put_last(&steps, fresh);
        Stored { kind, steps }
    }

    // Does the removals among these steps.
    fn remove_all(&mut self, steps: &[JarStep])
        ensures cookies { self.new.cookies ≡ after_removals self.old.cookies steps.now }
        ensures kind { self.new.kind ≡ self.old.kind }
        ensures spare { self.old.spare ≤ self.new.spare }
    {
        for step in steps {
            if let JarStep::Remove { place, .. } = *step {
                self.remove_within(place);
            }
        }
    }

    fn remove_within(&mut self, place: usize)
        ensures cookies { self.new.cookies ≡ remove self.old.cookies place }
        ensures kind { self.new.kind ≡ self.old.kind }
        ensures spare { self.old.spare ≤ self.new.spare }
    {
        if place < self.len() {
            self.remove_at(place);
        }
    }

    // Does the last of these steps, where it puts the cookie.
    fn put_last(&mut self, steps: &[JarStep], fresh: Cookie)
        requires room { 0 < self.old.spare }
        requires put { CanPut self.old.kind (plain_cookie fresh) self.old.cookies
            (slice_get steps.now (length steps.now - 1)) }
        ensures cookies { self.new.cookies ≡ after_put (plain_cookie fresh) self.old.cookies
            (slice_get steps.now (length steps.now - 1)) }
        ensures kind { self.new.kind ≡ self.old.kind }
    {
        match steps.last() {
            Some(JarStep::Insert { place, .. }) => self.insert_at(*place, fresh),
            Some(JarStep::Replace { place, .. }) => self.replace_at(*place, fresh),
            _ => {}
        }
    }
}
