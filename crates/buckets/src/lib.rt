//! Sheds: the bucket of each storage key, with its mode and its local area.
//!
//! A [`Shed`] is seen as a map from keys to buckets, in the order of the keys. An area is lent to
//! be changed, and the clause of the loan says what the shed is afterwards.
#![tactic(auto)]

mod shed;

pub use shed::{Bucket, Mode, Shed};
