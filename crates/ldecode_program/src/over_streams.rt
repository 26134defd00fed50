// The program over any streams.
ghost use Rattle.std.specs.Prelude.{◌≡◌, map};
ghost use Rattle.std.specs.String.{string_bytes};
ghost use Rattle.kind_table.specs.declared.table.TheConstants.{KINDS};
ghost use Rattle.words.specs.declared.options.TheConstants.{OPTIONS};
ghost use Rattle.help_text.specs.Help.{IsHelp};
ghost use Rattle.help_text.specs.declared.help.TheConstants.{CLOSING, DECODERS, USAGE};
ghost use Rattle.help_text.specs.declared.help.TheConstants.{VERSION};
ghost use Rattle.ldecode.specs.Headline.{stream};
ghost use Rattle.ldecode_program.specs.Programs.{ProgramDoes, MadeWritten, TextWritten};
ghost use Rattle.ldecode_program.specs.Requests.{requested};

use crate::request::{Request, request_of};
use decoder_core::Keep;
use decoder_set::AnyDecoder;
use help_text::{VERSION, help_text};
use la_io::{Failed, Sink, Source, write_whole};
use ldecode::{Host, Pacer, Status, exit_code, run};
use std::alloc::{AllocError, Global};
use std::sync::Wait;
use std::thread::Threads;

// Writes a text, and answers the exit status.
fn tell<K: Sink>(text: &str, sink: &mut K) -> u8
    ensures { TextWritten text.now (stream K.written K.faults sink.old sink.new) result }
{
    match write_whole(sink, text.as_bytes()) {
        Ok(()) => exit_code(&Status::Done),
        Err(Failed) => exit_code(&Status::WriteFault),
    }
}

// Writes the help, and answers the exit status.
fn tell_help<K: Sink>(alloc: Global, sink: &mut K) -> u8
    ensures { MadeWritten (IsHelp USAGE.now DECODERS.now CLOSING.now OPTIONS KINDS)
        (stream K.written K.faults sink.old sink.new) result }
{
    match help_text(alloc) {
        Ok(text) => tell(text.as_str(), sink),
        Err(AllocError) => exit_code(&Status::NoMemory),
    }
}

/// Does what the words ask for, and answers the exit status of the program: the help or the version
/// on the sink, where the first word asks for it, with the status of a run that wrote it; else a
/// run of the words over these streams.
pub fn program<R: Threads + Wait + Sync, S: Source + Send, K: Sink, E: Sink, P: Pacer + Sync>(
    rt: &R,
    alloc: Global,
    words: &[String],
    source: &mut S,
    sink: &mut K,
    notices: &mut E,
    pacer: &P,
) -> u8
    ensures { ProgramDoes ⟦<AnyDecoder as Keep>⟧.saves (requested (map string_bytes words.now))
        (IsHelp USAGE.now DECODERS.now CLOSING.now OPTIONS KINDS) VERSION.now
        (map string_bytes words.now)
        (stream S.left S.faults source.old source.new) (stream K.written K.faults sink.old sink.new)
        (stream E.written E.faults notices.old notices.new)
        (source.new ≡ source.old) (notices.new ≡ notices.old) result }
{
    match request_of(words) {
        Request::Help => tell_help(alloc, sink),
        Request::Version => tell(VERSION, sink),
        Request::Run => {
            let host = Host {
                runtime: rt,
                alloc,
                pacer,
            };
            exit_code(&run(&host, words, source, sink, notices))
        }
    }
}
