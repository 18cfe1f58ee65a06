//! What an agent has at present.

use live_state::Live;
use suffix_list::SuffixList;
use web_cookies::Cookies;

/// What an agent has at present, off which the events of a line are read.
#[derive(Clone, Copy, Debug)]
pub struct Present<'a> {
    pub list: &'a SuffixList,
    /// The clock, in seconds since 1970.
    pub now: u64,
    pub live: &'a Live,
    pub cookies: &'a Cookies,
}
