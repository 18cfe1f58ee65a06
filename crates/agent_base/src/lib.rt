//! Where bytes come from and where they go, and the refusals that every crate shares.
//!
//! A [`Source`] gives bytes and a [`Sink`] takes them. Each counts its faults, and a call answers
//! [`Failed`] only where that count rose in the call. [`read_all`] reads to the end of a source and
//! [`write_all`] writes every byte. A clause on the bytes holds where the object tells its bytes:
//! the ends in memory do, and the adapters where the reader or writer under them does.
#![tactic(auto)]

mod refusals;
mod seconds;
mod sink;
mod source;

pub use refusals::{Failed, Fault, Label, NoMemory};
pub use seconds::{LAST_MOMENT, Seconds};
pub use sink::{MemSink, Sink, WriteSink, write_all};
pub use source::{MemSource, ReadAll, ReadSource, Source, read_all};
