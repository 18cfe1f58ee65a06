//! A cookie that is kept, as contracts see it: the fields that a user agent stores. Definitions
//! alone, which the crates of cookie cells and of the model share.
#![tactic(auto)]
