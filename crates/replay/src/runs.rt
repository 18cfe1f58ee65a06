//! The run of a command.
ghost use Rattle.std.specs.Prelude.{◌≡◌, ◌≤◌, ◌⊎◌, map, Some, None, string_bytes};
ghost use Rattle.agent_base.specs.Seconds.{last_moment};
ghost use Rattle.command_line.specs.Words.{Help, command_of};
ghost use Rattle.printed_model.specs.Histories.{HasOneText, HasSameLines, HasSiteLines};
ghost use Rattle.replay.specs.BeforeAfter.{from_to};
ghost use Rattle.replay.specs.Causes.{DeviceCounts, LeavesListsBut, ListCause, ListFailed};
ghost use Rattle.replay.specs.Causes.{OpensNoList, ReadCause};
ghost use Rattle.replay.specs.Endings.{CanEnd};
ghost use Rattle.replay.specs.Causes.{ReadCounts, ReadsNoScript, ScriptCause};
ghost use Rattle.replay.specs.FaultLines.{TellsFault};
ghost use Rattle.replay.specs.Causes.{WriteCounts};
ghost use Rattle.replay.specs.Commands.{Obeys};
ghost use Rattle.replay.specs.Complete.{IsSuitable, NothingFailed};
ghost use Rattle.replay.specs.Runs.{Helps, TestsItself, WritesUsage};
ghost use Rattle.replay.specs.Dumps.{Dumps};
ghost use Rattle.replay.specs.Stores.{LeavesAllBut, Replays};
ghost use Rattle.replay.specs.Twins.{Compares};
ghost use Rattle.replay.specs.Words.{IsNoCommand, NamesSite, list_named, list_told, store_named};

use crate::dumps::dump_store;
use crate::pairs::write_twin;
use crate::scripts::replay;
use crate::seeds::write_selftest;
use crate::told::USAGE;
use crate::{Status, tell};
use agent_base::{NoMemory, Seconds, Sink, Source, write_all};
use agent_core::Options;
use command_line::{Command, read_words};
use hosts::Host;
use printed_model::printed_histories_are_isolated;
use std::alloc::Global;

/// Runs the command that the words are. For a run of a script it reads the list that the words
/// name, reads the whole script, opens the store that they name or makes a new one in memory, and
/// then runs the lines and writes their replies to `out`. For a comparison it reads site, list and
/// two scripts, and writes the line of the answer. For a dump it writes the rows of the store, for
/// a self-test the line of its seed, and for `--help` the usage line.
///
/// Nothing is written before list, script and store are read. What is opened is closed. A status
/// other than [`Status::Done`] writes one line to `err`; where that fails, the status stands.
pub fn run<H: Host, I: Source, O: Sink, E: Sink>(
    alloc: Global,
    words: &[String],
    host: &mut H,
    script: &mut I,
    out: &mut O,
    err: &mut E,
) -> Status
    requires { H.store_out host.old ≡ None }

    // What was printed of a script, and what is left of the store.
    ensures text { Replays (command_of (map string_bytes words.now)) result (H.lists host.old)
        (H.tells_stores host.old) (H.stores host.old) (H.stores host.new)
        (from_to (H.store_faults host.old) (H.store_faults host.new))
        (from_to (I.left script.old) (I.left script.new))
        (from_to (O.taken out.old) (O.taken out.new)) }

    // What was printed of each other command.
    ensures rows { Dumps (command_of (map string_bytes words.now)) result (H.lists host.old)
        (H.tells_stores host.old) (H.stores host.old) (H.stores host.new)
        (from_to (O.taken out.old) (O.taken out.new)) }
    ensures twin { Compares (command_of (map string_bytes words.now)) result (H.lists host.old)
        (from_to (I.left script.old) (I.left script.new))
        (from_to (O.taken out.old) (O.taken out.new)) }
    ensures selftest { TestsItself (command_of (map string_bytes words.now)) result
        (from_to (O.taken out.old) (O.taken out.new)) }
    ensures help { Helps (command_of (map string_bytes words.now)) result
        (from_to (O.taken out.old) (O.taken out.new)) }

    // The promise on what is printed of every history.
    ensures sites { HasSiteLines }
    ensures same { HasSameLines }
    ensures unbroken { HasOneText }

    // How it ended.
    ensures status { CanEnd (command_of (map string_bytes words.now)) result }
    ensures usage { result ≡ Status.Usage → IsNoCommand (command_of (map string_bytes words.now)) }
    ensures no_command { let command = command_of (map string_bytes words.now) in
        IsNoCommand command
        → (result ≡ Status.Usage) ⊎ (NamesSite command × (result ≡ Status.Memory)) }
    ensures script { ScriptCause (command_of (map string_bytes words.now)) result
        (I.left script.old) }
    ensures list { ListCause result
        (list_told (H.lists host.old) (map string_bytes words.now)) }
    ensures read { ReadCounts result (from_to (H.faults host.old) (H.faults host.new))
        (from_to (H.store_faults host.old) (H.store_faults host.new))
        (from_to (I.faults script.old) (I.faults script.new)) }
    ensures read_told { ReadCause (command_of (map string_bytes words.now)) result
        (list_told (H.lists host.old) (map string_bytes words.now)) (I.left script.old)
        (from_to (H.faults host.old) (H.faults host.new))
        (from_to (H.reads host.old) (H.reads host.new))
        (from_to (I.faults script.old) (I.faults script.new)) }
    ensures device { DeviceCounts (command_of (map string_bytes words.now)) result
        (from_to (H.store_faults host.old) (H.store_faults host.new)) }
    ensures write { WriteCounts result (from_to (O.faults out.old) (O.faults out.new)) }
    // Where nothing is at fault and nothing fails, it is done, but for want of memory.
    ensures complete { IsSuitable (command_of (map string_bytes words.now)) (H.lists host.old)
        (H.tells_stores host.old) (H.stores host.old) (I.left script.old)
        → NothingFailed (from_to (H.faults host.old) (H.faults host.new))
        (from_to (H.store_faults host.old) (H.store_faults host.new))
        (from_to (I.faults script.old) (I.faults script.new))
        (from_to (O.faults out.old) (O.faults out.new))
        → (result ≡ Status.Done) ⊎ (result ≡ Status.Memory) }

    // What is left alone, and what is closed.
    ensures untouched { OpensNoList (command_of (map string_bytes words.now))
        → host.new ≡ host.old }
    ensures unread { ReadsNoScript (command_of (map string_bytes words.now)) result
        → script.new ≡ script.old }
    ensures list_failed { ListFailed (from_to (H.reads host.old) (H.reads host.new))
        → script.new ≡ script.old }
    ensures lists { LeavesListsBut (list_named (command_of (map string_bytes words.now)))
        (H.lists host.old) (H.lists host.new) }
    ensures closed { H.lists_out host.new ≡ H.lists_out host.old }
    ensures store_closed { H.store_out host.new ≡ None }
    ensures others { LeavesAllBut (store_named (command_of (map string_bytes words.now)))
        (H.stores host.old) (H.stores host.new) }
    ensures told { TellsFault result (from_to (E.taken err.old) (E.taken err.new))
        (from_to (E.faults err.old) (E.faults err.new)) }
{
    let status = command(alloc, words, host, script, out);
    printed_histories_are_isolated();
    tell(err, &status);
    status
}

// The run without its line to standard error.
fn command<H: Host, I: Source, O: Sink>(
    alloc: Global,
    words: &[String],
    host: &mut H,
    script: &mut I,
    out: &mut O,
) -> Status
    requires { H.store_out host.old ≡ None }
    ensures { Obeys H.Host I.Source O.Sink (command_of (map string_bytes words.now)) result
        (from_to host.old host.new) (from_to script.old script.new) (from_to out.old out.new) }
{
    let command = match read_words(alloc, words) {
        Ok(Some(command)) => command,
        Ok(None) => return Status::Usage,
        Err(NoMemory) => return Status::Memory,
    };
    match command {
        Command::Help => help(out),
        Command::Replay {
            list,
            store,
            batch,
            checkpoint,
            start,
        } => {
            let options = options(start, batch, checkpoint);
            replay(alloc, list, store, options, host, script, out)
        }
        Command::Twin {
            site,
            list,
            batch,
            checkpoint,
            start,
        } => {
            let options = options(start, batch, checkpoint);
            write_twin(alloc, site, list, options, host, script, out)
        }
        Command::Dump { list, store } => dump_store(alloc, list, store, host, script, out),
        Command::Selftest { seed } => write_selftest(alloc, seed, out),
    }
}

/// How an agent begins, by the numbers of a command.
pub fn options(start: u64, batch: u16, checkpoint: u32) -> Options
    requires { start ≤ last_moment }
    ensures { result ≡ record { start = start; batch = batch; checkpoint = checkpoint } }
{
    Options {
        start: Seconds::new(start),
        batch,
        checkpoint,
    }
}

// Writes the usage line.
fn help<O: Sink>(out: &mut O) -> Status
    ensures text { WritesUsage result (from_to (O.taken out.old) (O.taken out.new)) }
    ensures status { CanEnd (Some Help) result }
    ensures write { WriteCounts result (from_to (O.faults out.old) (O.faults out.new)) }
{
    match write_all(out, USAGE.as_bytes()) {
        Ok(()) => Status::Done,
        Err(_) => Status::Write,
    }
}
