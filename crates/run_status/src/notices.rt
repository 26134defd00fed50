// The line that tells of a status.
ghost use Rattle.std.specs.Prelude.{◌≡◌, ◌≤◌, ◌++◌, [], codes, length};
ghost use Rattle.std.specs.Fmt.{decimal};
ghost use Rattle.run_status.specs.Notices.{word_why, stack_why, bind_why, capture_why, capture_at};
ghost use Rattle.run_status.specs.Notices.{check_why, line_of, notice_of, viewer_saw};

use crate::outcome::Outcome;
use crate::status::Status;
use check_point::CheckWhy;
use cond_words::BindWhy;
use la_io::CaptureFault;
use line_text::LineBuf;
use listing_out::push_text;
use stack_words::StackWhy;
use words::WordWhy;

// Why a word is refused.
fn word_why(why: WordWhy) -> &'static str
    ensures text { result.now ≡ word_why why }
    ensures short { length result.now ≤ 20 }
{
    match why {
        WordWhy::Unknown => "Unknown",
        WordWhy::NoValue => "NoValue",
        WordWhy::Repeat => "Repeat",
        WordWhy::Value => "Value",
        WordWhy::Range => "Range",
        WordWhy::Empty => "Empty",
        WordWhy::Long => "Long",
        WordWhy::Extra => "Extra",
        WordWhy::Few => "Few",
        WordWhy::Many => "Many",
        WordWhy::Clash => "Clash",
        WordWhy::Cond => "Cond",
    }
}

// Why a stack is refused.
fn stack_why(why: StackWhy) -> &'static str
    ensures text { result.now ≡ stack_why why }
    ensures short { length result.now ≤ 20 }
{
    match why {
        StackWhy::Unknown => "Unknown",
        StackWhy::Value => "Value",
        StackWhy::Range => "Range",
        StackWhy::Repeat => "Repeat",
        StackWhy::NoParent => "NoParent",
        StackWhy::Mismatch => "Mismatch",
        StackWhy::Missing => "Missing",
        StackWhy::Many => "Many",
    }
}

// Why a channel isn't bound.
fn bind_why(why: BindWhy) -> &'static str
    ensures text { result.now ≡ bind_why why }
    ensures short { length result.now ≤ 20 }
{
    match why {
        BindWhy::Unknown => "Unknown",
        BindWhy::TooMany => "TooMany",
        BindWhy::Rate => "Rate",
    }
}

// Why a checkpoint is refused.
fn check_why(why: CheckWhy) -> &'static str
    ensures text { result.now ≡ check_why why }
    ensures short { length result.now ≤ 20 }
{
    match why {
        CheckWhy::Many => "Many",
        CheckWhy::Form => "Form",
        CheckWhy::Fit => "Fit",
    }
}

// What is wrong with a capture.
fn capture_why(fault: CaptureFault) -> &'static str
    ensures text { result.now ≡ capture_why fault }
    ensures short { length result.now ≤ 20 }
{
    match fault {
        CaptureFault::ShortUnit { .. } => "ShortUnit",
        CaptureFault::Token { .. } => "Token",
        CaptureFault::TooLong { .. } => "TooLong",
        CaptureFault::NoTimescale => "NoTimescale",
        CaptureFault::NoDefinitions => "NoDefinitions",
        CaptureFault::TooMany { .. } => "TooMany",
        CaptureFault::TimeBack { .. } => "TimeBack",
        CaptureFault::TimeLarge { .. } => "TimeLarge",
        CaptureFault::Field { .. } => "Field",
        CaptureFault::Columns { .. } => "Columns",
        CaptureFault::Time { .. } => "Time",
        CaptureFault::Bytes => "Bytes",
        CaptureFault::Past => "Past",
    }
}

// The place of a capture's fault, or its line.
fn capture_at(fault: CaptureFault) -> u64
    ensures { result ≡ capture_at fault }
{
    match fault {
        CaptureFault::ShortUnit { at }
        | CaptureFault::Token { at }
        | CaptureFault::TooLong { at }
        | CaptureFault::TooMany { at }
        | CaptureFault::TimeBack { at, .. }
        | CaptureFault::TimeLarge { at } => at,
        CaptureFault::Field { line, .. }
        | CaptureFault::Columns { line, .. }
        | CaptureFault::Time { line } => line,
        CaptureFault::NoTimescale
        | CaptureFault::NoDefinitions
        | CaptureFault::Bytes
        | CaptureFault::Past => 0,
    }
}

// What is wrong with a word, and at which byte.
fn at_word(line: &mut LineBuf, what: &str, word: u32, at: u32, why: &str)
    requires empty { line.old ≡ [] }
    requires what { length what.now ≤ 20 }
    requires why { length why.now ≤ 20 }
    ensures { line.new ≡ what.now ++ decimal word ++ codes " at " ++ decimal at ++ codes ": "
        ++ why.now ++ codes "\n" }
{
    push_text(line, what);
    line.push_number(u64::from(word));
    push_text(line, " at ");
    line.push_number(u64::from(at));
    push_text(line, ": ");
    push_text(line, why);
    push_text(line, "\n");
}

/// The line that tells of a status.
pub fn notice(status: &Status) -> LineBuf
    ensures { result ≡ notice_of status.now }
{
    let mut line = LineBuf::new();
    match *status {
        Status::Done => {}
        Status::Words(fault) => {
            at_word(
                &mut line,
                "ldecode: word ",
                fault.word,
                fault.at,
                word_why(fault.why),
            );
        }
        Status::Stack(fault) => {
            at_word(
                &mut line,
                "ldecode: stack word ",
                fault.word,
                fault.at,
                stack_why(fault.why),
            );
        }
        Status::Bind(fault) => {
            push_text(&mut line, "ldecode: entry ");
            line.push_number(u64::from(fault.entry));
            push_text(&mut line, " item ");
            line.push_number(u64::from(fault.item));
            push_text(&mut line, ": ");
            push_text(&mut line, bind_why(fault.why));
            push_text(&mut line, "\n");
        }
        Status::Check(fault) => {
            push_text(&mut line, "ldecode: checkpoint at ");
            line.push_number(u64::from(fault.instance));
            push_text(&mut line, ": ");
            push_text(&mut line, check_why(fault.why));
            push_text(&mut line, "\n");
        }
        Status::ReadFault => push_text(&mut line, "ldecode: read fault\n"),
        Status::Capture(fault) => {
            push_text(&mut line, "ldecode: capture at ");
            line.push_number(capture_at(fault));
            push_text(&mut line, ": ");
            push_text(&mut line, capture_why(fault));
            push_text(&mut line, "\n");
        }
        Status::WriteFault => push_text(&mut line, "ldecode: write fault\n"),
        Status::NoMemory => push_text(&mut line, "ldecode: out of memory\n"),
    }
    line
}

// The line that tells how many notes a viewer saw.
fn viewer_saw(count: u64) -> LineBuf
    ensures { result ≡ viewer_saw count }
{
    let mut line = LineBuf::new();
    push_text(&mut line, "ldecode: viewer saw ");
    line.push_number(count);
    push_text(&mut line, " notes\n");
    line
}

/// The line that tells of a run: that of its status, or how many notes a viewer saw.
pub fn line_of(outcome: &Outcome) -> LineBuf
    ensures { result ≡ line_of outcome.now.status outcome.now.seen }
{
    match outcome.seen {
        None => notice(&outcome.status),
        Some(count) => viewer_saw(count),
    }
}
