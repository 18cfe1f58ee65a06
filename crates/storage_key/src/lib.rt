//! Storage keys: what the storage of documents is divided by.
//!
//! A [`Context`] says whether a document, or a load, is first party. A [`StorageKey`] is the
//! top-level site above a document, its origin, and the ancestor bit of its own context. Both are
//! found from the chain of the document: the sites of the documents from the top to it.
#![tactic(auto)]

mod context;
mod key;
mod stays;

pub use context::Context;
pub use key::{StorageKey, key_of, order_of, same_key};
