// How a reader of tokens takes bytes from its source.
ghost use Rattle.std.specs.Prelude.{◌≡◌, ◌<◌, length, true};
ghost use Rattle.byte_feed.specs.Moving.{Fills, Skips, Reaches, FeedCause};

use crate::FeedFault;
use crate::blanks::{blanks_at, plain_at};
use la_io::{Failed, Intake, MOST_BYTES, Source};

/// The least length that is too long, and the room for bytes that are held.
pub const LONG: usize = 65_536;

/// Reads once, and never behind the end. `false` is the end. It isn't inlined, since mostly a whole
/// token is held.
#[inline(never)]
pub fn fill<S: Source>(
    intake: &mut Intake<LONG>,
    ended: &mut bool,
    source: &mut S,
) -> Result<bool, FeedFault>
    requires room { length intake.old.bytes < 65536 }
    ensures fills { Fills intake.old intake.new ended.old ended.new (S.left source.old)
        (S.left source.new) result }
    ensures unread { ended.old ≡ true → source.new ≡ source.old }
    ensures cause { FeedCause (S.faults source.old) (S.faults source.new) result }
{
    if *ended {
        return Ok(false);
    }
    if intake.taken() >= MOST_BYTES {
        return Err(FeedFault::Bytes);
    }
    match intake.more(source) {
        Ok(0) => {
            *ended = true;
            Ok(false)
        }
        Ok(_) => Ok(true),
        Err(Failed) => Err(FeedFault::Read),
    }
}

/// Passes over blanks. `false` is the end.
#[inline(always)]
pub fn skip_blanks<S: Source>(
    intake: &mut Intake<LONG>,
    ended: &mut bool,
    source: &mut S,
) -> Result<bool, FeedFault>
    ensures skips { Skips intake.old intake.new ended.old ended.new (S.left source.old)
        (S.left source.new) result }
    ensures unread { ended.old ≡ true → source.new ≡ source.old }
    ensures cause { FeedCause (S.faults source.old) (S.faults source.new) result }
{
    let count = blanks_at(intake.bytes());
    intake.advance(count);
    while intake.bytes().is_empty() {
        match fill(intake, ended, source) {
            Ok(true) => {
                let count = blanks_at(intake.bytes());
                intake.advance(count);
            }
            Ok(false) => return Ok(false),
            Err(fault) => return Err(fault),
        }
    }
    Ok(true)
}

/// How many bytes the token has that begins at the front of what is held.
#[inline(always)]
pub fn token_len<S: Source>(
    intake: &mut Intake<LONG>,
    ended: &mut bool,
    source: &mut S,
) -> Result<usize, FeedFault>
    ensures reaches { Reaches intake.old intake.new ended.old ended.new (S.left source.old)
        (S.left source.new) result }
    ensures unread { ended.old ≡ true → source.new ≡ source.old }
    ensures cause { FeedCause (S.faults source.old) (S.faults source.new) result }
{
    let mut count = plain_at(intake.bytes(), 0);
    while count == intake.bytes().len() {
        if count >= LONG {
            return Err(FeedFault::TooLong {
                at: intake.taken() - count as u64,
            });
        }
        match fill(intake, ended, source) {
            Ok(true) => count = plain_at(intake.bytes(), count),
            Ok(false) => return Ok(count),
            Err(fault) => return Err(fault),
        }
    }
    Ok(count)
}
