//! Keys that are read one behind another.
ghost use Rattle.std.specs.Prelude.{◌≡◌, ◌-◌, IfOk, IfSome, Some, length, take};
ghost use Rattle.storage_key.specs.Plain.{plain_key};
ghost use Rattle.row_changes.specs.LastKey.{IsSpelling};
ghost use Rattle.row_changes.specs.Reading as reading;
ghost use Rattle.row_changes.specs.Stops.{Gives};

use crate::names::key_at;
use crate::stop::Stop;
use agent_base::NoMemory;
use std::alloc::Global;
use storage_key::StorageKey;

// A key, and the bytes that it was read from.
#[derive(Debug, Drop)]
pub struct LastKey {
    bytes: Vec<u8>,
    key: StorageKey,
    // the bytes are the key's spelling
    ghost spelling: { IsSpelling bytes.items (plain_key key) },
}

/// Reads keys, and keeps the last one: where its bytes come again, it is copied, and no URL is
/// parsed.
#[derive(Debug, Drop)]
pub struct Keys {
    last: Option<LastKey>,
}

impl Keys {
    /// No key was read yet.
    pub fn new() -> Keys {
        Keys { last: None }
    }

    // The key at the front of bytes.
    pub(crate) fn read(&mut self, alloc: Global, bytes: &mut &[u8]) -> Result<StorageKey, Stop>
        ensures key { Gives (λ key. (plain_key key, bytes.new.now))
            (reading.key_at bytes.old.now) result }
    {
        let whole = *bytes;
        if let Some((key, rest)) = self.known(whole) {
            *bytes = rest;
            return Ok(key.copy(alloc)?);
        }
        let key = key_at(alloc, bytes)?;
        self.keep(alloc, whole, *bytes, &key);
        Ok(key)
    }

    // The last key, where its bytes are at the front, and the bytes behind it.
    fn known<'k, 'b>(&'k self, bytes: &'b [u8]) -> Option<(&'k StorageKey, &'b [u8])>
        ensures known { IfSome result
            (λ k. reading.key_at bytes.now ≡ Some (plain_key k.0.now, k.1.now)) }
    {
        let Some(last) = &self.last else {
            return None;
        };
        match bytes.strip_prefix(last.bytes.as_slice()) {
            Some(rest) => Some((&last.key, rest)),
            None => None,
        }
    }

    // Keeps a key that was read, with its bytes. Without memory none is kept.
    fn keep(&mut self, alloc: Global, bytes: &[u8], rest: &[u8], key: &StorageKey)
        requires read { reading.key_at bytes.now ≡ Some (plain_key key.now, rest.now) }
    {
        let front = front_of(bytes, rest.len());
        self.last = kept(alloc, front, key).ok();
    }
}

fn kept(alloc: Global, bytes: &[u8], key: &StorageKey) -> Result<LastKey, NoMemory>
    requires spelling { IsSpelling bytes.now (plain_key key.now) }
{
    let mut own = Vec::new(alloc);
    own.extend_from_slice(bytes)?;
    Ok(LastKey {
        bytes: own,
        key: key.copy(alloc)?,
    })
}

// The bytes before the last ones.
fn front_of(bytes: &[u8], left: usize) -> &[u8]
    ensures front { result.now ≡ take (length bytes.now - left) bytes.now }
{
    &bytes[..bytes.len().saturating_sub(left)]
}
