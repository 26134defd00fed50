// How a reader of lines takes bytes from its source.
ghost use Rattle.std.specs.Prelude.{◌≡◌, ◌<◌, ◌≤◌, ◌^◌, ◌++◌, ◌⊎◌, ◌∷◌, [], List, ℕ, length};
ghost use Rattle.std.specs.Prelude.{slice_index, drop, true, false};
ghost use Rattle.byte_feed.specs.Lines.{is_feed, without_mark};
ghost use Rattle.byte_feed.specs.LineMoves.{AllIn, FillsKept, PassesFront, ReachesEnd};
ghost use Rattle.byte_feed.specs.Moving.{FeedCause};

use crate::FeedFault;
use crate::filling::LONG;
use la_io::{Failed, Intake, MOST_BYTES, Source};

// Dropped wherever it stands.
const RETURN: u8 = 13;

// The byte order mark, which is dropped at the very front.
const MARK: [u8; 3] = [239, 187, 191];

/// How many bytes at the front are of one line, where `known` of them are known to be.
#[inline(always)]
pub fn line_at(bytes: &[u8], known: usize) -> usize
    requires within { known ≤ length bytes.now }
    requires one { AllIn bytes.now known }
    ensures within { result ≤ length bytes.now }
    ensures more { known ≤ result }
    ensures one { AllIn bytes.now result }
    ensures behind { result < length bytes.now → is_feed (slice_index bytes.now result) ≡ true }
{
    let mut count = known;
    while count < bytes.len() && bytes[count] != b'\n' {
        count += 1;
    }
    count
}

/// Whether the bytes may begin a mark that more of them make whole.
fn may_be_mark(bytes: &[u8]) -> bool
    ensures may { result ≡ true
        → (bytes.now ≡ []) ⊎ (bytes.now ≡ 239 ∷ []) ⊎ (bytes.now ≡ 239 ∷ 187 ∷ []) }
    ensures may_not { result ≡ false → (more : List ℕ)
        → without_mark (bytes.now ++ more) ≡ without_mark bytes.now ++ more }
{
    bytes.len() < MARK.len() && MARK.starts_with(bytes)
}

/// How many bytes at the front are a mark.
fn mark_len(bytes: &[u8]) -> usize
    ensures within { result ≤ length bytes.now }
    ensures behind { drop result bytes.now ≡ without_mark bytes.now }
{
    if bytes.starts_with(&MARK) { 3 } else { 0 }
}

/// Reads once, and never behind the end. `false` is the end.
#[inline(never)]
fn fill<S: Source>(
    intake: &mut Intake<LONG>,
    ended: &mut bool,
    source: &mut S,
) -> Result<bool, FeedFault>
    requires room { length intake.old.bytes < 65536 }
    ensures fills { FillsKept intake.old intake.new ended.old ended.new (S.left source.old)
        (S.left source.new) result }
    ensures unread { ended.old ≡ true → source.new ≡ source.old }
    ensures cause { FeedCause (S.faults source.old) (S.faults source.new) result }
{
    if *ended {
        return Ok(false);
    }
    if intake.taken() >= MOST_BYTES {
        return Err(FeedFault::Bytes);
    }
    match intake.more_without(source, RETURN) {
        Ok(0) => {
            *ended = true;
            Ok(false)
        }
        Ok(_) => Ok(true),
        Err(Failed) => Err(FeedFault::Read),
    }
}

/// Passes over a mark before the first line, where so many lines were given.
#[inline(always)]
pub fn pass_mark<S: Source>(
    intake: &mut Intake<LONG>,
    ended: &mut bool,
    source: &mut S,
    lines: u64,
) -> Result<(), FeedFault>
    ensures passes { PassesFront lines intake.old intake.new ended.old ended.new (S.left source.old)
        (S.left source.new) result }
    ensures unread { ended.old ≡ true → source.new ≡ source.old }
    ensures cause { FeedCause (S.faults source.old) (S.faults source.new) result }
{
    if lines > 0 {
        return Ok(());
    }
    let mut waits = may_be_mark(intake.bytes());
    while waits {
        match fill(intake, ended, source) {
            Ok(true) => waits = may_be_mark(intake.bytes()),
            Ok(false) => return Ok(()),
            Err(fault) => return Err(fault),
        }
    }
    let count = mark_len(intake.bytes());
    intake.advance(count);
    Ok(())
}

/// How many bytes the line has that begins at the front of what is held, behind so many lines.
#[inline(always)]
pub fn line_len<S: Source>(
    intake: &mut Intake<LONG>,
    ended: &mut bool,
    source: &mut S,
    lines: u64,
) -> Result<usize, FeedFault>
    requires { lines ≤ 2 ^ 60 }
    ensures reaches { ReachesEnd lines intake.old intake.new ended.old ended.new (S.left source.old)
        (S.left source.new) result }
    ensures unread { ended.old ≡ true → source.new ≡ source.old }
    ensures cause { FeedCause (S.faults source.old) (S.faults source.new) result }
{
    let mut count = line_at(intake.bytes(), 0);
    while count == intake.bytes().len() {
        if count >= LONG {
            return Err(FeedFault::TooLong { at: lines + 1 });
        }
        match fill(intake, ended, source) {
            Ok(true) => count = line_at(intake.bytes(), count),
            Ok(false) => return Ok(count),
            Err(fault) => return Err(fault),
        }
    }
    Ok(count)
}
