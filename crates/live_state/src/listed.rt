//! What is put behind a list of documents.
ghost use Rattle.std.specs.Prelude.{◌≡◌, ◌++◌, OnOk, map, option_copied, option_map};
ghost use Rattle.std.specs.Option.{option_to_list};
ghost use Rattle.storage_key.specs.Plain.{plain_key};
ghost use Rattle.live_state.specs.Documents.{plain_keyed};
ghost use Rattle.live_state.specs.Hearers.{hearing};

use agent_base::{Label, NoMemory};
use std::alloc::Global;
use storage_events::{AreaKind, hears};
use storage_key::StorageKey;

/// Puts a document behind the others, if it has a key and hears of a change.
pub fn list_hearer(
    kind: AreaKind,
    writer: Label,
    key: &StorageKey,
    at: Label,
    own: Option<&StorageKey>,
    to: &mut Vec<Label>,
) -> Result<(), NoMemory>
    ensures listed { let own = option_map plain_key (option_copied own.entry) in
        let found = option_to_list (option_map (λ own. (at, own)) own) in
        OnOk result (to.new.items
        ≡ to.old.items ++ hearing kind writer (plain_key key.now) found) }
{
    let Some(own) = own else {
        return Ok(());
    };
    if !hears(kind, writer, key, at, own) {
        return Ok(());
    }
    match to.push(at) {
        Ok(()) => Ok(()),
        Err(_) => Err(NoMemory),
    }
}

/// Puts a document behind the others, if it has a key.
pub fn list_document(
    alloc: Global,
    at: Label,
    own: Option<&StorageKey>,
    documents: &mut Vec<(Label, StorageKey)>,
) -> Result<(), NoMemory>
    ensures listed { let own = option_map plain_key (option_copied own.entry) in
        let found = option_to_list (option_map (λ own. (at, own)) own) in
        OnOk result (map plain_keyed documents.new.items
        ≡ map plain_keyed documents.old.items ++ found) }
{
    let Some(own) = own else {
        return Ok(());
    };
    match documents.push((at, own.copy(alloc)?)) {
        Ok(()) => Ok(()),
        Err(_) => Err(NoMemory),
    }
}
