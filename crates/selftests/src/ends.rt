//! Where the list of a self-test comes from, and where its text goes.
ghost use Rattle.std.specs.Prelude.{◌≡◌, [], IfOk};
ghost use Rattle.selftests.specs.Store.{no_rules};

use agent_base::{Failed, NoMemory, Sink, Source};
use std::alloc::Global;
use suffix_list::{ListFault, SuffixList};

// A source of no bytes, of which no call fails.
#[derive(Drop)]
struct NoBytes;

impl Source for NoBytes {
    ghost use Rattle.std.specs.Prelude.{Some, []};

    ghost left = { λ _. Some [] };

    ghost faults = { λ _. 0 };

    fn read(&mut self, _: &mut [u8]) -> Result<usize, Failed> {
        Ok(0)
    }
}

/// The list that has no rules.
pub fn empty_list(alloc: Global) -> Result<SuffixList, NoMemory>
    ensures { IfOk result (λ list. list ≡ no_rules) }
{
    match SuffixList::read(alloc, &mut NoBytes) {
        Ok(list) => Ok(list),
        Err(fault) => Err(memory(fault)),
    }
}

// A list of no bytes is refused for want of memory alone.
fn memory(fault: ListFault) -> NoMemory
    requires memory { fault ≡ ListFault.NoMemory }
{
    match fault {
        ListFault::NoMemory => NoMemory,
        _ => unreachable!(),
    }
}

/// A text in memory, which grows. A call fails for want of memory alone.
#[derive(Debug, Drop)]
pub struct TextSink {
    pub text: Vec<u8>,
    pub faults: u64,
}

impl TextSink {
    /// A sink that took nothing.
    pub fn new(alloc: Global) -> TextSink
        ensures text { result.text.items ≡ [] }
    {
        TextSink {
            text: Vec::new(alloc),
            faults: 0,
        }
    }
}

impl Sink for TextSink {
    ghost use Rattle.std.specs.Prelude.{Some};

    ghost taken = { λ s. Some s.text.items };

    ghost faults = { λ s. s.faults };

    fn write(&mut self, bytes: &[u8]) -> Result<usize, Failed> {
        match self.text.extend_from_slice(bytes) {
            Ok(()) => Ok(bytes.len()),
            Err(_) => {
                self.faults = self.faults.saturating_add(1);
                Err(Failed)
            }
        }
    }
}
