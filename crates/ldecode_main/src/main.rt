//! The program `ldecode`: its words, its standard streams, and the exit status.
#![tactic(auto)]

ghost use Rattle.std.specs.Prelude.{◌≡◌};
ghost use Rattle.std.specs.Process.{exit_status};

mod input;

use input::StandardInput;
use la_io::StdSink;
use ldecode::PlainPacer;
use ldecode_program::program;
use std::alloc::{AllocError, Global};
use std::env::{self, Args};
use std::fs;
use std::io::Write;
use std::process::ExitCode;

/// The exit status where the system gives no words.
const NO_WORDS: u8 = 6;

// The words behind the program's name.
fn words_behind_name(alloc: Global, mut args: Args) -> Result<Vec<String>, AllocError> {
    let _name = args.next();
    args.collect(alloc)
}

// There are no words to run.
fn no_words(rt: &HostRuntime) -> ExitCode
    ensures { exit_status result ≡ 6 }
{
    let _ = rt.stderr().write_all(b"ldecode: no words\n");
    ExitCode::from(NO_WORDS)
}

// Whether standard input is a file, so that no read of it has to wait.
fn is_file(rt: &HostRuntime) -> bool {
    match fs::metadata(rt, "/dev/stdin") {
        Ok(input) => input.is_file(),
        Err(_) => false,
    }
}

fn main(rt: HostRuntime) -> ExitCode {
    let Ok(args) = env::args(&rt) else {
        return no_words(&rt);
    };
    let Ok(words) = words_behind_name(rt.alloc(), args) else {
        return no_words(&rt);
    };
    let mut source = StandardInput::new(rt.stdin(), is_file(&rt));
    let mut sink = StdSink::new(rt.stdout());
    let mut notices = StdSink::new(rt.stderr());
    let code = program(
        &rt,
        rt.alloc(),
        &words,
        &mut source,
        &mut sink,
        &mut notices,
        &PlainPacer,
    );
    ExitCode::from(code)
}
