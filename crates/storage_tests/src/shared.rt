//! What tests of several libraries share.
use agent_base::MemSource;
use origin_site::{Address, Origin};
use std::alloc::Global;
use std::test::Fail;
use suffix_list::SuffixList;

/// The list that a text is.
pub fn list_of(alloc: Global, text: &str) -> Result<SuffixList, Fail> {
    let bytes = Vec::from_slice(alloc, text.as_bytes())?;
    let mut source = MemSource::new(bytes, Vec::new(alloc));
    Ok(SuffixList::read(alloc, &mut source)?)
}

/// The origin of an address.
pub fn origin_at(alloc: Global, text: &str) -> Result<Origin, Fail> {
    Ok(Address::read(alloc, text)?.origin(alloc)?)
}
