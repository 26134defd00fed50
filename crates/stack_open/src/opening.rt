// What stands before a decoding.
ghost use Rattle.std.specs.Prelude.{◌≡◌, ℕ, All, IfErr, IfOk, IfSome};
ghost use Rattle.words.specs.Readable.{IsShort};
ghost use Rattle.words.specs.Settings.{meaning_of};
ghost use Rattle.run_status.specs.Causes.{SinkCause, SourceCause, WhereUnread};
ghost use Rattle.run_asks.specs.Asking.{HasStack, NamesNoHead};
ghost use Rattle.run_asks.specs.Refusing.{RefusesOn};
ghost use Rattle.stack_open.specs.Opening.{IsOpened};

use capture_any::Capture;
use cond_words::BindError;
use decoder_set::AnyDecoder;
use la_io::Source;
use run_asks::form_of;
use run_status::{Status, status_at_head};
use stack_spec::bind;
use stack_words::{Stack, StackError, read_stack};
use std::alloc::Global;
use words::Settings;

/// A stack, its decoders and the places on which they stand, and the capture behind its head.
pub struct Opened {
    pub stack: Stack,
    pub capture: Capture,
    pub machines: Vec<AnyDecoder>,
    pub parents: Vec<Option<u32>>,
}

/// Opens the capture under the stack that the settings ask for. A status says why it can't.
pub fn open_stack<S: Source>(
    alloc: Global,
    settings: &Settings,
    source: &mut S,
) -> Result<Opened, Status>
    requires job { HasStack settings.now.job }
    requires chains { All IsShort settings.now.chains.items }
    requires shown { IfSome settings.now.show IsShort }
    requires binary { IfSome settings.now.binary IsShort }
    ensures opened { IfOk result
        (IsOpened (meaning_of settings.now) (S.left source.old) (S.left source.new)) }
    ensures kept { IfOk result (λ _. S.faults source.new ≡ S.faults source.old) }
    ensures headless { IfOk result (λ _. NamesNoHead (meaning_of settings.now)
        → source.new ≡ source.old) }
    ensures refuses { IfErr result
        (RefusesOn (meaning_of settings.now) (S.left source.old) (S.left source.new)) }
    ensures unread { IfErr result (λ status. WhereUnread (NamesNoHead (meaning_of settings.now))
        status (source.new ≡ source.old)) }
    ensures read { IfErr result (SourceCause (S.faults source.old) (S.faults source.new)) }
    ensures write { IfErr result (λ status. (failed : ℕ) → SinkCause failed failed status) }
{
    let stack = match read_stack(
        alloc,
        &settings.chains,
        settings.show.as_ref(),
        settings.binary.as_ref(),
    ) {
        Ok(stack) => stack,
        Err(StackError::Fault(fault)) => return Err(Status::Stack(fault)),
        Err(StackError::NoMemory) => return Err(Status::NoMemory),
    };
    let mut capture = match Capture::open(alloc, form_of(settings), source) {
        Ok(capture) => capture,
        Err(error) => return Err(status_at_head(error)),
    };
    let bound = match bind(alloc, &stack, capture.names(), capture.rate()) {
        Ok(bound) => bound,
        Err(BindError::Fault(fault)) => return Err(Status::Bind(fault)),
        Err(BindError::NoMemory) => return Err(Status::NoMemory),
    };
    capture.select(bound.pins);
    Ok(Opened {
        stack,
        capture,
        machines: bound.machines,
        parents: bound.parents,
    })
}
