//! Tests of tables, suffix lists, Set-Cookie texts and the cookie jars, by calls of their libraries.
//!
//! They stand apart from these, so that each of them is proved once.
#![tactic(auto)]

#[cfg(test)]
mod callers;
#[cfg(test)]
mod jars;
#[cfg(test)]
mod limits;
#[cfg(test)]
mod lists;
#[cfg(test)]
mod long_texts;
#[cfg(test)]
mod sites;
#[cfg(test)]
mod tables;
