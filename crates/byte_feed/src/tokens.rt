// The reader of tokens.
ghost use Rattle.std.specs.Prelude.{◌≤◌, length};

use crate::FeedFault;
use crate::blanks::{blanks_at, plain_at};
use crate::filling::{LONG, skip_blanks, token_len};
use la_base::NoMemory;
use la_io::{Intake, Source};
use std::alloc::Global;

/// Reads tokens: parts of a stream of bytes between spaces, tabs and the bytes of line ends. It
/// holds the token that it gave last.
#[derive(Drop)]
pub struct Tokens {
    intake: Box<Intake<LONG>>,
    len: usize,
    ended: bool,
    spent: bool,
    ghost within: { len ≤ length intake.value.bytes },
}

impl Tokens {
    ghost use Rattle.std.specs.Prelude.{◌≡◌, ◌≢◌, ◌<◌, ◌≤◌, ◌^◌, [], IfOk, IfSome, None, Err, true};
    ghost use Rattle.std.specs.Prelude.{false};
    ghost use Rattle.la_io.specs.Capture.{Cut};
    ghost use Rattle.byte_feed.specs.Moving.{FeedCause};
    ghost use Rattle.byte_feed.specs.Reader.{Stands, Next, GaveToken, HoldsNone, is_spent};
    ghost use Rattle.byte_feed.specs.Reader.{ended_of, text_of, left_of, taken_of};
    ghost use Rattle.byte_feed.specs.Feeding.{spent_by};
    ghost use Rattle.byte_feed.specs.declared.fault.FeedFault.TheVariants.{Spent};

    /// A reader that has taken nothing. This takes the memory for its buffer.
    pub fn new(alloc: Global) -> Result<Tokens, NoMemory>
        ensures stands { IfOk result (λ tokens. Stands tokens [] Cut []) }
        ensures fresh { IfOk result (λ tokens. is_spent tokens ≡ false) }
    {
        Ok(Tokens {
            intake: Box::new(alloc, Intake::new())?,
            len: 0,
            ended: false,
            spent: false,
        })
    }

    /// The place of the next token's first byte, or `None` at the end. After a fault there is none.
    // Inlined, since most tokens are a few bytes that are held.
    #[inline(always)]
    pub fn next<S: Source>(&mut self, source: &mut S) -> Result<Option<u64>, FeedFault>
        ensures next { Next self.old self.new (S.left source.old) (S.left source.new) result }
        ensures spent { is_spent self.old ≡ true → result ≡ Err Spent }
        ensures why { is_spent self.old ≡ false → result ≢ Err Spent }
        ensures spends { is_spent self.new ≡ spent_by result }
        ensures unread { ended_of self.old ≡ true → source.new ≡ source.old }
        ensures idle { is_spent self.old ≡ true → source.new ≡ source.old }
        ensures still { is_spent self.old ≡ true → self.new ≡ self.old }
        ensures progress { IfOk result
            (λ token. IfSome token (λ _. left_of self.new < left_of self.old)) }
        ensures few { IfOk result (λ token. IfSome token (λ _. taken_of self.new ≤ 2 ^ 60)) }
        ensures cause { FeedCause (S.faults source.old) (S.faults source.new) result }
    {
        if self.spent {
            return Err(FeedFault::Spent);
        }
        self.intake.advance(self.len);
        self.len = 0;
        match skip_blanks(&mut self.intake, &mut self.ended, source) {
            Ok(true) => {}
            Ok(false) => return Ok(None),
            Err(fault) => {
                self.spent = true;
                return Err(fault);
            }
        }
        match token_len(&mut self.intake, &mut self.ended, source) {
            Ok(count) => {
                self.len = count;
                Ok(Some(self.intake.taken() - self.intake.bytes().len() as u64))
            }
            Err(fault) => {
                self.spent = true;
                Err(fault)
            }
        }
    }

    /// The place of the next token's first byte, where that token and a blank behind it are held.
    /// Where they aren't, it is `None`, nothing changes, and `next` gives it. Nothing is read.
    #[inline(always)]
    pub fn held(&mut self) -> Option<u64>
        requires { is_spent self.old ≡ false }
        ensures gave { IfSome result (λ at. GaveToken self.old self.new at) }
        ensures none { result ≡ None → HoldsNone self.old }
        ensures kept { result ≡ None → self.new ≡ self.old }
        ensures ended { ended_of self.new ≡ ended_of self.old }
        ensures spent { is_spent self.new ≡ false }
        ensures taken { taken_of self.new ≡ taken_of self.old }
        ensures progress { IfSome result (λ _. left_of self.new < left_of self.old) }
    {
        let rest = &self.intake.bytes()[self.len..];
        let blanks = blanks_at(rest);
        let behind = &rest[blanks..];
        let count = plain_at(behind, 0);
        let left = behind.len();
        if count == left {
            return None;
        }
        self.intake.advance(self.len + blanks);
        self.len = count;
        Some(self.intake.taken() - left as u64)
    }

    /// The bytes of the token that was given last.
    #[inline(always)]
    pub fn text(&self) -> &[u8]
        ensures { result.now ≡ text_of self.now }
    {
        &self.intake.bytes()[..self.len]
    }
}
