//! What a line is run with.
use agent_base::Seconds;
use std::alloc::Global;
use suffix_list::SuffixList;

/// What every step of a line is given: where its memory is from, the list that says of which site
/// an address is, and the moment.
#[derive(Clone, Copy, Debug)]
pub struct LineInput<'a> {
    pub alloc: Global,
    pub list: &'a SuffixList,
    pub clock: Seconds,
}
