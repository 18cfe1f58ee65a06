//! The run of a command.
ghost use Rattle.std.specs.Prelude.{◌≡◌, map, Some, string_bytes};
ghost use Rattle.command_line.specs.Shows.{Help, show_of};
ghost use Rattle.replay.specs.BeforeAfter.{from_to};
ghost use Rattle.replay.specs.Causes.{LeavesListsBut, ListCause, ListFailed, OpensNoList};
ghost use Rattle.replay.specs.Causes.{ReadCause, ReadsNoScript, WriteCounts};
ghost use Rattle.replay.specs.Words.{list_named};
ghost use Rattle.shown_scripts.specs.Laws.{ShowsAsGiven};
ghost use Rattle.show_commands.specs.Causes.{CanEnd, LeavesAllStores, ReadCounts, ScriptCause};
ghost use Rattle.show_commands.specs.Causes.{alike, list_of_show};
ghost use Rattle.show_commands.specs.FaultLines.{TellsLine};
ghost use Rattle.show_commands.specs.Serving.{Serves};
ghost use Rattle.show_commands.specs.Shows.{Shows, WritesUsage};

use crate::scripts::show_site;
use crate::tell_shown;
use crate::told::USAGE;
use agent_base::{Sink, Source, write_all};
use command_line::{Show, read_show_words};
use hosts::Host;
use replay::{Status, options};
use shown_scripts::shown_texts_differ_as_local_scripts_do;
use std::alloc::Global;

/// Runs the command that the words are. It reads the site and the list that the words name and the
/// whole script, or the two, runs each over a new store in memory, and writes to `out` what they
/// give the site. For `--help` it writes the usage line.
///
/// Nothing is written before all is read and all lines are made, and no store of the host is
/// opened. What is opened is closed. A status other than [`Status::Done`] writes one line to `err`;
/// where that fails, the status stands.
pub fn run<H: Host, I: Source, O: Sink, E: Sink>(
    alloc: Global,
    words: &[String],
    host: &mut H,
    script: &mut I,
    out: &mut O,
    err: &mut E,
) -> Status
    // What was written.
    ensures text { Shows (show_of (map string_bytes words.now)) result (H.lists host.old)
        (from_to (I.left script.old) (I.left script.new))
        (from_to (O.taken out.old) (O.taken out.new)) }

    // What a reader of two outputs may rest on.
    ensures given { ShowsAsGiven }

    // How it ended.
    ensures status { CanEnd (show_of (map string_bytes words.now)) result }
    ensures script { ScriptCause (show_of (map string_bytes words.now)) result
        (I.left script.old) }
    ensures list { ListCause result
        (list_of_show (H.lists host.old) (show_of (map string_bytes words.now))) }
    ensures read { ReadCounts result (from_to (H.faults host.old) (H.faults host.new))
        (from_to (I.faults script.old) (I.faults script.new)) }
    ensures read_told { let command = show_of (map string_bytes words.now) in
        ReadCause (alike command) result (list_of_show (H.lists host.old) command)
        (I.left script.old) (from_to (H.faults host.old) (H.faults host.new))
        (from_to (H.reads host.old) (H.reads host.new))
        (from_to (I.faults script.old) (I.faults script.new)) }
    ensures write { WriteCounts result (from_to (O.faults out.old) (O.faults out.new)) }

    // What is left alone, and what is closed.
    ensures untouched { OpensNoList (alike (show_of (map string_bytes words.now)))
        → host.new ≡ host.old }
    ensures unread { ReadsNoScript (alike (show_of (map string_bytes words.now))) result
        → script.new ≡ script.old }
    ensures list_failed { ListFailed (from_to (H.reads host.old) (H.reads host.new))
        → script.new ≡ script.old }
    ensures lists { LeavesListsBut (list_named (alike (show_of (map string_bytes words.now))))
        (H.lists host.old) (H.lists host.new) }
    ensures closed { H.lists_out host.new ≡ H.lists_out host.old }
    ensures stores { LeavesAllStores H.Host host.old host.new }
    ensures told { TellsLine result (from_to (E.taken err.old) (E.taken err.new))
        (from_to (E.faults err.old) (E.faults err.new)) }
{
    let status = command(alloc, words, host, script, out);
    shown_texts_differ_as_local_scripts_do();
    tell_shown(err, &status);
    status
}

// The run without its line to standard error.
fn command<H: Host, I: Source, O: Sink>(
    alloc: Global,
    words: &[String],
    host: &mut H,
    script: &mut I,
    out: &mut O,
) -> Status
    ensures { Serves H.Host I.Source O.Sink (show_of (map string_bytes words.now)) result
        (from_to host.old host.new) (from_to script.old script.new) (from_to out.old out.new) }
{
    match read_show_words(words) {
        Some(Show::Help) => help(out),
        Some(
            Show::Shows {
                what,
                site,
                list,
                batch,
                checkpoint,
                start,
            },
        ) => {
            let options = options(start, batch, checkpoint);
            show_site(alloc, what, site, list, options, host, script, out)
        }
        None => Status::Usage,
    }
}

// Writes the usage line.
fn help<O: Sink>(out: &mut O) -> Status
    ensures text { WritesUsage result (from_to (O.taken out.old) (O.taken out.new)) }
    ensures status { CanEnd (Some Help) result }
    ensures write { WriteCounts result (from_to (O.faults out.old) (O.faults out.new)) }
{
    match write_all(out, USAGE.as_bytes()) {
        Ok(()) => Status::Done,
        Err(_) => Status::Write,
    }
}
