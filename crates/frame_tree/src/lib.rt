//! The frames of a tab: documents, their sandboxes and activations, and the chain above each.
//!
//! A [`Tab`] is a top document, frame 0, and frames 1 to 255, each under a parent. A [`Document`]
//! has the restrictions of its frame and of the documents above it. The chain of a frame is the
//! list of documents from the top to it. Each document's storage key is made at its load and kept.
#![tactic(auto)]

mod by_number;
mod document;
mod frames;
mod keys;
mod loads;
mod marks;
mod sandbox;
mod sets;
mod tab;

pub use by_number::ByNumber;
pub use document::{Document, site_of_address};
pub use sandbox::Sandbox;
pub use tab::{NoFrame, Tab, TreeFault};
