//! A suffix list: its rules and the digest of its bytes.
ghost use Rattle.std.specs.Prelude.{◌≡◌, ◌≤◌, ◌↔◌, ◌⊎◌, ℕ, List, [], length, option_map};
ghost use Rattle.std.specs.Prelude.{Ok, Err, IfOk, IfSome, IsErrOf, IsNone, IsTrue, MatchResult, OnOk};
ghost use Rattle.agent_base.specs.Counts.{Rose};
ghost use Rattle.agent_base.specs.Streams.{Gives, Shortens};
ghost use Rattle.suffix_list.specs.ListText.{byte_limit, list_of};
ghost use Rattle.suffix_list.specs.Suffix as spec;

use crate::ListFault;
use crate::labels::{last_labels, one_label_more};
use crate::reader::read_rules;
use crate::rules::Rules;
use agent_base::{NoMemory, ReadAll, Source, read_all};
use sha2::{Digest, Sha256};
use std::alloc::Global;
use std::marker::Model;

const BYTE_LIMIT: usize = 1_048_576;

/// The rules of a Public Suffix List, by which the registrable domain of a host is found.
#[derive(Debug, Drop)]
pub struct SuffixList {
    pub(crate) rules: Rules,
    digest: [u8; 32],
}

impl Model for SuffixList {
    ghost use Rattle.suffix_list.specs.ListText.{RuleList};

    ghost Value = { RuleList };

    ghost view = { λ list. record { rules = list.rules; digest = list.digest } };
}

impl SuffixList {
    /// Reads a list to the end of a source, in time linear in its bytes. The first line that breaks
    /// a rule is answered; the length of the list goes before every line.
    pub fn read<S: Source>(alloc: Global, source: &mut S) -> Result<SuffixList, ListFault>
        ensures answer { IfSome (S.left source.old) (λ bytes.
            MatchResult result (λ list. list_of bytes ≡ Ok list) (λ why. (why ≡ ListFault.NoMemory)
            ⊎ ((why ≡ ListFault.ReadFault) ⊎ (list_of bytes ≡ Err why)))) }
        ensures given { IfOk result (λ list. (bytes : List ℕ)
            × Gives (S.left source.old) (S.left source.new) bytes × (list_of bytes ≡ Ok list)) }
        ensures end { OnOk result (IfSome (S.left source.new) (λ rest. rest ≡ [])) }
        ensures read_fault { IsErrOf result ListFault.ReadFault
            → Rose (S.faults source.old) (S.faults source.new) }
        ensures later { S.faults source.old ≤ S.faults source.new }
        ensures still { MatchResult result (λ _. S.faults source.new ≡ S.faults source.old)
            (λ why. (why ≡ ListFault.ReadFault) ⊎ (S.faults source.new ≡ S.faults source.old)) }
        ensures rest { Shortens (S.left source.old) (S.left source.new) }
    {
        match read_all(alloc, source, BYTE_LIMIT) {
            Ok(bytes) => SuffixList::of_bytes(alloc, bytes.as_slice()),
            Err(ReadAll::TooLong) => Err(ListFault::TooLong),
            Err(ReadAll::Failed) => Err(ListFault::ReadFault),
            Err(ReadAll::NoMemory) => Err(ListFault::NoMemory),
        }
    }

    /// The registrable domain of a host that is no IP address: its public suffix and one label
    /// more. Hosts are compared byte by byte, so give one in lower case and in ASCII. Takes no
    /// memory. The time depends on the host's labels, and not on the number of rules.
    pub fn registrable<'h>(&self, host: &'h str) -> Option<&'h str>
        ensures value { option_map (λ text. text.now) result
            ≡ spec.registrable_domain self.now.rules host.now }
        ensures none { IsNone result ↔ (spec.public_suffix self.now.rules host.now ≡ host.now) }
    {
        one_label_more(host, self.rules.suffix_labels(host))
    }

    /// Whether a name is its own public suffix. Takes no memory.
    pub fn is_suffix(&self, name: &str) -> bool
        ensures own { IsTrue result ↔ (spec.public_suffix self.now.rules name.now ≡ name.now) }
    {
        last_labels(name, self.rules.suffix_labels(name)) == name
    }

    /// The SHA-256 digest of the list's bytes.
    pub fn digest(&self) -> [u8; 32]
        ensures value { result ≡ self.now.digest }
    {
        self.digest
    }

    /// The same list, over memory of its own.
    pub fn copy(&self, alloc: Global) -> Result<SuffixList, NoMemory>
        ensures same { IfOk result (λ list. list ≡ self.now) }
    {
        Ok(SuffixList {
            rules: self.rules.copy(alloc)?,
            digest: self.digest,
        })
    }

    fn of_bytes(alloc: Global, bytes: &[u8]) -> Result<SuffixList, ListFault>
        requires { length bytes.now ≤ byte_limit }
        ensures { MatchResult result (λ list. list_of bytes.now ≡ Ok list)
            (λ why. (why ≡ ListFault.NoMemory) ⊎ (list_of bytes.now ≡ Err why)) }
    {
        Ok(SuffixList {
            rules: read_rules(alloc, bytes)?,
            digest: Sha256::digest(bytes),
        })
    }
}
