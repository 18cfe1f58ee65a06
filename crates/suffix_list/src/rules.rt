//! The rules of a list.
ghost use Rattle.std.specs.Prelude.{◌≡◌, ◌++◌, ◌∷◌, [], IfOk, IsTrue, length};
ghost use Rattle.suffix_list.specs.Suffix.{suffix_labels};

use crate::marks;
use crate::marks::{Marks, note_ends, note_name, note_parent};
use std::alloc::{AllocError, Global};
use std::collections::HashMap;
use std::marker::Model;

/// A rule: whether it begins with `!`, and its name without that.
#[derive(Debug, Drop)]
pub(crate) struct KeptRule {
    pub(crate) is_exception: bool,
    pub(crate) name: String,
}

/// Rules in the order of their list, with their names for the look-up.
#[derive(Debug, Drop)]
pub(crate) struct Rules {
    pub(crate) listed: Vec<KeptRule>,
    names: HashMap<String, Marks>,
}

impl Model for Rules {
    ghost use Rattle.std.specs.Prelude.{List, map};
    ghost use Rattle.suffix_list.specs.Suffix.{Rule};

    ghost Value = { List Rule };

    ghost use Rattle.suffix_list.specs.Names.{TellsOf, plain_rule};

    ghost view = { λ r. map plain_rule r.listed.items };

    ghost invariant = { λ r. TellsOf r.names r.listed.items };
}

impl KeptRule {
    ghost use Rattle.suffix_list.specs.Names.{plain_rule};

    fn copy(&self, alloc: Global) -> Result<KeptRule, AllocError>
        ensures { IfOk result (λ rule. plain_rule rule ≡ plain_rule self.now) }
    {
        Ok(KeptRule {
            is_exception: self.is_exception,
            name: String::from_str(alloc, self.name.as_str())?,
        })
    }
}

impl Rules {
    ghost use Rattle.suffix_list.specs.ListText.{is_rule};
    ghost use Rattle.suffix_list.specs.Names.{plain_rule};

    pub(crate) fn new(alloc: Global) -> Rules
        ensures { result ≡ [] }
    {
        Rules {
            listed: Vec::new(alloc),
            names: HashMap::new(alloc),
        }
    }

    pub(crate) fn len(&self) -> usize
        ensures { result ≡ length self.now }
    {
        self.listed.len()
    }

    /// Adds a rule behind the others.
    pub(crate) fn add(mut self, alloc: Global, rule: KeptRule) -> Result<Rules, AllocError>
        requires { IsTrue (is_rule (plain_rule rule)) }
        ensures { IfOk result (λ rules. rules ≡ self ++ plain_rule rule ∷ []) }
    {
        note_name(&mut self.names, alloc, &rule)?;
        note_parent(&mut self.names, alloc, &rule)?;
        note_ends(&mut self.names, alloc, &rule)?;
        self.listed.push(rule)?;
        Ok(self)
    }

    pub(crate) fn copy(&self, alloc: Global) -> Result<Rules, AllocError>
        ensures { IfOk result (λ rules. rules ≡ self.now) }
    {
        let mut rules = Rules::new(alloc);
        'rules: for rule in &self.listed {
            rules = rules.add(alloc, rule.copy(alloc)?)?;
        }
        Ok(rules)
    }

    /// How many of a host's last labels are its public suffix.
    pub(crate) fn suffix_labels(&self, host: &str) -> usize
        ensures { result ≡ suffix_labels self.now host.now }
    {
        marks::suffix_labels(&self.names, host)
    }
}
