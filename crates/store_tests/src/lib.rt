//! Tests of rows, of the frames that they take, and of what a dump prints of them, by the public
//! calls of `row_store` and `store_dumps`.
//!
//! They stand apart from those libraries, so that these are proved once.
#![tactic(auto)]

#[cfg(test)]
mod applying;
#[cfg(test)]
mod bodies;
#[cfg(test)]
mod conditions;
#[cfg(test)]
mod dumps;
#[cfg(test)]
mod frames;
#[cfg(test)]
mod lists;
#[cfg(test)]
mod spellings;
