// How a header is read from a source.
ghost use Rattle.std.specs.Prelude.{◌≡◌, true, false, IfOk};
ghost use Rattle.byte_feed.specs.Reader.{is_spent};
ghost use Rattle.capture_vcd.specs.Opening.{HeadOn, HeadReads, HoldsFew};
ghost use Rattle.la_io.specs.Reading.{CaptureCause};

use crate::header::Header;
use byte_feed::{Tokens, error_of};
use la_io::{CaptureError, CaptureFault, Source};

// Reads one token. `true` is the end of the header.
fn head_token<S: Source>(
    tokens: &mut Tokens,
    header: &mut Header,
    source: &mut S,
) -> Result<bool, CaptureError>
    requires { is_spent tokens.old ≡ false }
    ensures reads { HeadReads tokens.old tokens.new header.old header.new (S.left source.old)
        (S.left source.new) result }
    ensures on { HeadOn tokens.old tokens.new result }
    ensures small { HoldsFew header.new }
    ensures cause { CaptureCause (S.faults source.old) (S.faults source.new) result }
{
    match tokens.next(source) {
        Ok(Some(at)) => header.token(at, tokens.text()),
        Ok(None) => Err(CaptureError::Fault(CaptureFault::NoDefinitions)),
        Err(fault) => Err(error_of(fault)),
    }
}

/// Reads a header to its end. Of a section that is open no more is kept than it may need.
pub fn read_header<S: Source>(
    tokens: &mut Tokens,
    header: &mut Header,
    source: &mut S,
) -> Result<bool, CaptureError>
    requires { is_spent tokens.old ≡ false }
    ensures reads { HeadReads tokens.old tokens.new header.old header.new (S.left source.old)
        (S.left source.new) result }
    ensures whole { IfOk result (λ done. done ≡ true) }
    ensures fresh { IfOk result (λ _. is_spent tokens.new ≡ false) }
    ensures small { HoldsFew header.new }
    ensures cause { CaptureCause (S.faults source.old) (S.faults source.new) result }
{
    'head: loop {
        match head_token(tokens, header, source) {
            Ok(true) => return Ok(true),
            Ok(false) => {}
            Err(error) => return Err(error),
        }
    }
}
