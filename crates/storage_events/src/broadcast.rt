//! Which documents hear of a change.
ghost use Rattle.std.specs.Prelude.{◌≡◌, IfOk};
ghost use Rattle.storage_events.specs.Audience.{audience, hears};

use crate::AreaKind;
use agent_base::{Label, NoMemory};
use std::alloc::Global;

/// The documents that hear of a change which `writer` made, in the order of `documents`.
///
/// `key` is the storage key of the writer, and each document comes with its own.
pub fn audience<K: Eq>(
    alloc: Global,
    area: AreaKind,
    writer: Label,
    key: &K,
    documents: &[(Label, K)],
) -> Result<Vec<Label>, NoMemory>
    ensures audience { IfOk result (λ labels. labels.items
        ≡ audience K.eq area writer key.now documents.now) }
{
    let mut labels = Vec::new(alloc);
    for document in documents {
        if hears(area, writer, key, document.0, &document.1) && labels.push(document.0).is_err() {
            return Err(NoMemory);
        }
    }
    Ok(labels)
}

/// Whether `reader`, whose storage key is `own`, hears of a change that `writer` made under `key`.
pub fn hears<K: Eq>(area: AreaKind, writer: Label, key: &K, reader: Label, own: &K) -> bool
    ensures hears { result ≡ hears K.eq area writer key.now (reader, own.now) }
{
    let within = match area {
        AreaKind::Local => true,
        AreaKind::Session => reader.tab == writer.tab,
    };
    within && reader != writer && *key == *own
}
