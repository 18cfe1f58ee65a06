//! What a request for storage access comes to.
ghost use Rattle.std.specs.Prelude.{◌≡◌, Some, true};
ghost use Rattle.access_grants.specs.Request.{GivesAccess, first_row, granted, is_grant_decision};
ghost use Rattle.access_grants.specs.Request.{prompt_rows, refused, request_rows};

use crate::{Answer, Facts, GrantState, Permission};

/// Why storage access is refused.
#[derive(Clone, Copy, Debug, PartialEq, Eq)]
pub enum Refusal {
    /// The document's origin is opaque.
    Opaque,
    /// A document from the top to this one is http.
    Insecure,
    /// The permissions policy denies it.
    Policy,
    /// The sandbox does not allow it.
    Sandbox,
    /// The user denied it before.
    Denied,
    /// The document has no transient activation.
    NoActivation,
    /// The user denies it now.
    DeniedNow,
    /// The user closed the prompt.
    Dismissed,
}

/// The answer to a request.
#[derive(Clone, Copy, Debug, PartialEq, Eq)]
pub enum Decision {
    /// `prompted` where the user granted it now.
    Granted { prompted: bool },
    Refused(Refusal),
}

/// The answer to a request, and what the caller does with it.
#[derive(Clone, Copy, Debug, PartialEq, Eq)]
pub struct Outcome {
    pub decision: Decision,
    /// What is kept for the pair of sites that asked, by [`Grants::keep`](crate::Grants::keep).
    pub kept: Option<Permission>,
    /// The document's flag is set.
    pub sets_flag: bool,
    /// The document's activation is consumed.
    pub consumes: bool,
}

/// What a request comes to, from the state of the pair that asks.
pub fn decide(facts: &Facts, state: GrantState, answer: Answer, now: i64) -> Outcome
    ensures row { first_row (request_rows facts.now state answer now) ≡ Some result }
    ensures access { GivesAccess facts.now result }
{
    if facts.opaque {
        refused(Refusal::Opaque)
    } else if !facts.secure {
        refused(Refusal::Insecure)
    } else if facts.deny {
        refused(Refusal::Policy)
    } else if !facts.sandbox_allows {
        refused(Refusal::Sandbox)
    } else if facts.first || facts.flag {
        granted(false)
    } else if state == GrantState::Granted {
        granted(true)
    } else if state == GrantState::Denied {
        refused(Refusal::Denied)
    } else if !facts.active {
        refused(Refusal::NoActivation)
    } else {
        prompted(answer, now)
    }
}

// What the answer to the prompt comes to.
fn prompted(answer: Answer, now: i64) -> Outcome
    ensures row { first_row (prompt_rows answer now) ≡ Some result }
    ensures flag { is_grant_decision result.decision ≡ true → result.sets_flag ≡ true }
{
    match answer {
        Answer::Grant => Outcome {
            decision: Decision::Granted { prompted: true },
            kept: Some(Permission::at(true, now)),
            ..granted(true)
        },
        Answer::Deny => Outcome {
            kept: Some(Permission::at(false, now)),
            consumes: true,
            ..refused(Refusal::DeniedNow)
        },
        Answer::Dismiss => Outcome {
            consumes: true,
            ..refused(Refusal::Dismissed)
        },
    }
}

// Refused without a prompt.
fn refused(why: Refusal) -> Outcome
    ensures { result ≡ refused why }
{
    Outcome {
        decision: Decision::Refused(why),
        kept: None,
        sets_flag: false,
        consumes: false,
    }
}

// Granted without a prompt.
fn granted(sets_flag: bool) -> Outcome
    ensures { result ≡ granted sets_flag }
{
    Outcome {
        decision: Decision::Granted { prompted: false },
        kept: None,
        sets_flag,
        consumes: false,
    }
}
