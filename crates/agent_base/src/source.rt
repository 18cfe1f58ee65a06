//! Sources of bytes, and reading one to its end.
ghost use Rattle.std.specs.Prelude.{◌≡◌, ◌≢◌, ◌≤◌, ◌<◌, ◌↔◌, ◌++◌, ◌⊎◌, ℕ, List, [], Option, Some, None, Ok, Err, IfErr, IfOk, IfSome, IsErr, IsErrOf, IsTrue, OnErr, OnOk, MatchResult, length, take, min};
ghost use Rattle.agent_base.specs.Counts.{Rose, HasCause, next_count};
ghost use Rattle.agent_base.specs.Streams.{Gives, Shortens};
ghost use Rattle.agent_base.specs.Memory.{SourceView, next_fails};
ghost use Rattle.std.specs.Io.{ReadsAtMost};
ghost use Rattle.std.specs.Io.KnownBytes.{ReadConsumes};
ghost use Rattle.std.specs.IoError.{error_kind};

use crate::{Failed, NoMemory};
use std::alloc::Global;
use std::io;
use std::io::{ErrorKind, Read};
use std::marker::Model;

/// Bytes from outside, in their order.
pub trait Source {
    // the bytes that are left, where the source tells them
    ghost left: { Self → Option (List ℕ) };

    // how many calls failed
    ghost faults: { Self → ℕ };

    /// Gives the next bytes, as many as it answers. `Ok(0)` is the end.
    fn read(&mut self, into: &mut [u8]) -> Result<usize, Failed>
        requires { 0 < length into.old }
        ensures bound { IfOk result (λ n. n ≤ length into.new) }
        ensures bytes { MatchResult result
            (λ n. Gives (left self.old) (left self.new) (take n into.new))
            (λ _. Gives (left self.old) (left self.new) []) }
        ensures end { IfOk result (λ n. n ≡ 0 → IfSome (left self.new) (λ rest. rest ≡ [])) }
        ensures cause { HasCause (faults self.old) (faults self.new) result };
}

/// Why a source was not read to its end. After a refusal the source has fewer bytes left.
#[derive(Clone, Copy, Debug, PartialEq, Eq)]
pub enum ReadAll {
    /// A read failed, and the source's count of faults rose.
    Failed,
    /// The source gave more bytes than the limit.
    TooLong,
    /// A growth of memory was refused.
    NoMemory,
}

/// Reads all bytes to the end of a source, at most `limit` of them.
pub fn read_all<S: Source>(alloc: Global, source: &mut S, limit: usize) -> Result<Vec<u8>, ReadAll>
    ensures all { IfOk result (λ bytes. Gives (S.left source.old) (S.left source.new) bytes.items) }
    ensures end { OnOk result (IfSome (S.left source.new) (λ rest. rest ≡ [])) }
    ensures within { IfOk result (λ bytes. length bytes.items ≤ limit) }
    ensures too_long { IsErrOf result ReadAll.TooLong → IfSome (S.left source.old)
        (λ bytes. limit < length bytes) }
    ensures failed { IsErrOf result ReadAll.Failed
        → Rose (S.faults source.old) (S.faults source.new) }
    ensures later { S.faults source.old ≤ S.faults source.new }
    ensures still { MatchResult result (λ _. S.faults source.new ≡ S.faults source.old)
        (λ why. (why ≡ ReadAll.Failed) ⊎ (S.faults source.new ≡ S.faults source.old)) }
    ensures rest { Shortens (S.left source.old) (S.left source.new) }
{
    let mut bytes = Vec::new(alloc);
    let mut piece = [0; 4096];
    'pieces: for _ in 0..u64::MAX {
        let n = match source.read(&mut piece) {
            Ok(n) => n,
            Err(Failed) => return Err(ReadAll::Failed),
        };
        if n == 0 {
            return Ok(bytes);
        }
        if n > limit - bytes.len() {
            return Err(ReadAll::TooLong);
        }
        if bytes.extend_from_slice(&piece[..n]).is_err() {
            return Err(ReadAll::NoMemory);
        }
    }
    Err(ReadAll::NoMemory)
}

/// Bytes in memory, with a list of calls that fail, for tests.
#[derive(Debug, Drop)]
pub struct MemSource {
    bytes: Vec<u8>,
    at: usize,
    fails: Vec<u64>,
    calls: u64,
    faults: u64,
}

impl Model for MemSource {
    ghost use Rattle.std.specs.Prelude.{drop, length, ◌≤◌};
    ghost use Rattle.agent_base.specs.Memory.{SourceView};

    ghost Value = { SourceView };

    ghost view = { λ s. record {
      left = drop s.at s.bytes.items;
      fails = s.fails.items;
      calls = s.calls;
      faults = s.faults;
    } };

    ghost invariant = { λ s. s.at ≤ length s.bytes.items };
}

impl MemSource {
    /// A source of these bytes. `fails` holds the numbers of the calls that fail, from 1.
    pub fn new(bytes: Vec<u8>, fails: Vec<u64>) -> MemSource
        ensures { result
            ≡ record { left = bytes.items; fails = fails.items; calls = 0; faults = 0 } }
    {
        MemSource {
            bytes,
            at: 0,
            fails,
            calls: 0,
            faults: 0,
        }
    }

    /// How many calls failed.
    pub fn faults(&self) -> u64
        ensures faults { result ≡ self.now.faults }
    {
        self.faults
    }

    // Gives as many of the bytes left as there is room for.
    fn give(&mut self, into: &mut [u8]) -> usize
        ensures count { result ≡ min (length into.old) (length self.old.left) }
        ensures bytes { self.old.left ≡ take result into.new ++ self.new.left }
        ensures rest { self.new ≡ record self.old { left = self.new.left } }
    {
        let rest = &self.bytes[self.at..];
        let count = rest.len().min(into.len());
        into[..count].copy_from_slice(&rest[..count]);
        self.at += count;
        count
    }
}

impl Source for MemSource {
    ghost left = { λ s. Some s.left };

    ghost faults = { λ s. s.faults };

    // The trait's clauses, and after them exactly what this source answers.
    fn read(&mut self, into: &mut [u8]) -> Result<usize, Failed>
        requires { 0 < length into.old }
        ensures bound { IfOk result (λ n. n ≤ length into.new) }
        ensures bytes { MatchResult result
            (λ n. Gives (Some self.old.left) (Some self.new.left) (take n into.new))
            (λ _. Gives (Some self.old.left) (Some self.new.left) []) }
        ensures end { IfOk result (λ n. n ≡ 0 → IfSome (Some self.new.left) (λ rest. rest ≡ [])) }
        ensures cause { HasCause self.old.faults self.new.faults result }
        ensures count { IfOk result (λ n. n ≡ min (length into.old) (length self.old.left)) }
        ensures fails { IsErr result ↔ IsTrue (next_fails self.old.fails self.old.calls) }
        ensures calls { self.new.calls ≡ next_count self.old.calls }
        ensures faults { OnErr result (self.new.faults ≡ next_count self.old.faults) }
        ensures kept { self.new.fails ≡ self.old.fails }
    {
        self.calls = self.calls.saturating_add(1);
        if self.fails.contains(&self.calls) {
            self.faults = self.faults.saturating_add(1);
            return Err(Failed);
        }
        Ok(self.give(into))
    }
}

/// Any reader of std. It tells what the reader tells of the bytes that are left.
#[derive(Debug, Drop)]
pub struct ReadSource<R: Read + Drop> {
    reader: R,
    faults: u64,
}

impl<R: Read + Drop> ReadSource<R> {
    /// A source over a reader, with no fault yet.
    pub fn new(reader: R) -> ReadSource<R>
        ensures { result.faults ≡ 0 }
    {
        ReadSource { reader, faults: 0 }
    }

    /// How many calls failed.
    pub fn faults(&self) -> u64
        ensures faults { result ≡ self.now.faults }
    {
        self.faults
    }
}

impl<R: Read + Drop> Source for ReadSource<R> {
    ghost left = { λ s. R.remaining s.reader };

    ghost faults = { λ s. s.faults };

    // A reader that answers more than the room it was given is at fault.
    fn read(&mut self, into: &mut [u8]) -> Result<usize, Failed> {
        let room = into.len();
        match read_again(&mut self.reader, into) {
            Ok(n) if n <= room => Ok(n),
            _ => {
                self.faults = self.faults.saturating_add(1);
                Err(Failed)
            }
        }
    }
}

// One read, which is made again where a signal interrupts it: an interrupted one gave no byte.
fn read_again<R: Read>(reader: &mut R, into: &mut [u8]) -> io::Result<usize>
    ensures room { length into.new ≡ length into.old }
    ensures bound { ReadsAtMost result into.new }
    ensures bytes { ReadConsumes (R.remaining reader.old) (R.remaining reader.new) result into.new }
    ensures uninterrupted { IfErr result (λ e. error_kind e ≢ ErrorKind.Interrupted) }
{
    'tries: for _ in 0..u64::MAX {
        match reader.read(into) {
            Err(error) if error.kind() == ErrorKind::Interrupted => {}
            answer => return answer,
        }
    }
    Err(ErrorKind::TimedOut.into())
}
