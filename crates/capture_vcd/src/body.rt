// The body of a VCD file, token by token.
ghost use Rattle.std.specs.Prelude.{◌≡◌, ◌+◌, ◌-◌, ◌*◌, ◌^◌, ◌≤◌, ◌<◌, length, map, vec_len};
ghost use Rattle.capture_vcd.specs.Body.{samples_before};
ghost use Rattle.capture_vcd.specs.Chains.{NoneHas};
ghost use Rattle.capture_vcd.specs.Following.{word_bits};
ghost use Rattle.capture_vcd.specs.Linked.{Linked};
ghost use Rattle.capture_vcd.specs.Slots.{channel_of, level_of};

use crate::chains::Chains;
use crate::selecting::PLACES;
use crate::slots::{Slot, assign, change, set_values, word_of};
use crate::tokens::{Begun, begin};
use arrayvec::ArrayVec;
use la_base::{Run, Word};
use la_io::CaptureFault;

/// What the next token belongs to.
#[derive(Clone, Copy, PartialEq, Eq)]
pub enum Pending {
    /// Nothing.
    Free,
    /// A value that was noted, whose code it is.
    Value(u64),
    /// A value that is skipped.
    Skip(u64),
    /// A comment.
    Comment,
}

/// The first time, that before which all samples were given, and the last time.
#[derive(Clone, Copy, PartialEq, Eq)]
pub struct Span {
    pub start: u64,
    pub given: u64,
    pub last: u64,
    ghost begun: { start ≤ given },
    ghost in_order: { given ≤ last },
    ghost few: { last < 2 ^ 60 },
}

/// What was read of the body of a VCD file. Samples are held back while no channel that is selected
/// changes: all of them have the word of the levels.
#[derive(Drop)]
pub struct Body {
    // the code of each variable
    codes: Vec<Vec<u8>>,
    slots: ArrayVec<Slot, PLACES>,
    chains: Chains,
    // the word of their levels
    word: Word,
    pending: Pending,
    span: Option<Span>,
    down: u64,
    ghost down_fits: { (1 ≤ down) × (down ≤ 1000000000) },
    ghost linked: { Linked chains (map (channel_of codes.items) slots.items) },
    ghost word_is: { word ≡ word_bits (map level_of slots.items) },
}

// How many samples have a time before the last one.
#[inline(always)]
fn samples_before(span: u64, down: u64) -> u64
    requires some { 1 ≤ down }
    requires few { down ≤ 1000000000 }
    requires span { span < 2 ^ 60 }
    ensures { result ≡ samples_before span down }
{
    if down == 1 {
        return span;
    }
    (span + down - 1) / down
}

impl Body {
    ghost use Rattle.std.specs.Prelude.{ℕ, [], ◌∷◌, None, IfOk, false};
    ghost use Rattle.text_parts.specs.Places.{Placed};
    ghost use Rattle.capture_vcd.specs.Running.{BodyStands, Changes, Counts, RunCounts, Flushes};
    ghost use Rattle.capture_vcd.specs.Running.{IsChange, channels_in, down_in, given_in, all_in};
    ghost use Rattle.capture_vcd.specs.Running.{SameForm, TokenGives, EndGives, Reaches};
    ghost use Rattle.capture_vcd.specs.Running.{hanging_of, pending_in};
    ghost use Rattle.capture_vcd.specs.declared.body.Pending.TheVariants.{Free, Value};

    /// Nothing was read, and no channel is selected.
    pub fn new(codes: Vec<Vec<u8>>, down: u64) -> Body
        requires some { 1 ≤ down }
        requires few { down ≤ 1000000000 }
        ensures fresh { BodyStands result [] [] }
        ensures codes { result.codes ≡ codes }
        ensures down { down_in result ≡ down }
        ensures channels { channels_in result ≡ [] }
    {
        Body {
            codes,
            slots: ArrayVec::new(),
            chains: Chains::new(),
            word: 0,
            pending: Pending::Free,
            span: None,
            down,
        }
    }

    /// How many variables there are.
    pub fn variables(&self) -> usize
        ensures { result ≡ length self.now.codes.items }
    {
        self.codes.len()
    }

    /// These channels are the bits of the samples, all low, and nothing was read.
    pub fn select(&mut self, slots: ArrayVec<Slot, PLACES>)
        ensures slots { self.new.slots.items ≡ slots.items }
        ensures codes { self.new.codes ≡ self.old.codes }
        ensures down { down_in self.new ≡ down_in self.old }
        ensures free { pending_in self.new ≡ Free }
        ensures span { self.new.span ≡ None }
    {
        let chains = Chains::of(&self.codes, &slots);
        let word = word_of(&slots);
        self.slots = slots;
        self.chains = chains;
        self.word = word;
        self.pending = Pending::Free;
        self.span = None;
    }

    // A time. The samples before it are held back.
    #[inline(always)]
    fn reach(&mut self, at: u64, time: u64) -> Result<(), CaptureFault>
        requires few { time < 2 ^ 60 }
        ensures reaches { Reaches self.old self.new at time result }
        ensures form { SameForm self.old self.new }
        ensures given { given_in self.new ≡ given_in self.old }
    {
        match self.span {
            Some(span) => {
                if time < span.last {
                    return Err(CaptureFault::TimeBack {
                        at,
                        was: i128::from(span.last),
                        now: i128::from(time),
                    });
                }
                self.span = Some(Span {
                    start: span.start,
                    given: span.given,
                    last: time,
                });
                Ok(())
            }
            None => {
                self.span = Some(Span {
                    start: time,
                    given: time,
                    last: time,
                });
                Ok(())
            }
        }
    }

    /// Gives the samples that are held back.
    #[inline(always)]
    pub fn flush(&mut self) -> Option<Run>
        ensures { Flushes self.old self.new result }
    {
        let span = match self.span {
            Some(span) => span,
            None => return None,
        };
        let len = samples_before(span.last - span.start, self.down)
            - samples_before(span.given - span.start, self.down);
        if len == 0 {
            return None;
        }
        self.span = Some(Span {
            start: span.start,
            given: span.last,
            last: span.last,
        });
        Some(Run {
            value: self.word,
            len,
        })
    }

    // Whether a change of a code may change a channel that is selected.
    #[inline(always)]
    fn may_change(&self, code: &[u8]) -> bool
        ensures { result ≡ false → NoneHas self.now.codes.items code.now self.now.slots.items }
    {
        self.chains.first(code) < self.slots.len()
    }

    // The value that was noted is that of this code.
    #[inline(always)]
    fn take_value(&mut self, code: &[u8]) -> Option<Run>
        requires { (at : ℕ) × (pending_in self.old ≡ Value at) }
        ensures gives { (at : ℕ) → Changes self.old self.new (at, code.now) result }
        ensures form { SameForm self.old self.new }
        ensures counts { RunCounts (given_in self.old) (given_in self.new) result }
    {
        if !self.may_change(code) {
            self.pending = Pending::Free;
            return None;
        }
        let run = self.flush();
        assign(
            &self.codes,
            &self.chains,
            &mut self.slots,
            &mut self.word,
            code,
        );
        self.pending = Pending::Free;
        run
    }

    // A change of a code to a value of one digit.
    #[inline(always)]
    fn change(&mut self, first: u8, code: &[u8]) -> Option<Run>
        requires { pending_in self.old ≡ Free }
        ensures gives { (token : Placed) → IsChange token first code.now
            → Changes self.old self.new token result }
        ensures form { SameForm self.old self.new }
        ensures counts { RunCounts (given_in self.old) (given_in self.new) result }
    {
        if !self.may_change(code) {
            return None;
        }
        let run = self.flush();
        change(
            &self.codes,
            &self.chains,
            &mut self.slots,
            &mut self.word,
            first,
            code,
        );
        run
    }

    // A token that belongs to nothing before it.
    #[inline(always)]
    fn free_token(&mut self, at: u64, first: u8, rest: &[u8]) -> Result<Option<Run>, CaptureFault>
        requires { pending_in self.old ≡ Free }
        ensures gives { TokenGives self.old self.new (at, first ∷ rest.now) result }
        ensures form { SameForm self.old self.new }
        ensures counts { Counts (given_in self.old) (given_in self.new) result }
    {
        match begin(first, rest) {
            Begun::Time(time) => match self.reach(at, time) {
                Ok(()) => Ok(None),
                Err(fault) => Err(fault),
            },
            Begun::Large => Err(CaptureFault::TimeLarge { at }),
            Begun::Scalar => Ok(self.change(first, rest)),
            Begun::Vector => {
                set_values(&mut self.slots, rest);
                self.pending = Pending::Value(at);
                Ok(None)
            }
            Begun::Skip => {
                self.pending = Pending::Skip(at);
                Ok(None)
            }
            Begun::Comment => {
                self.pending = Pending::Comment;
                Ok(None)
            }
            Begun::Passed => Ok(None),
            Begun::Wrong => Err(CaptureFault::Token { at }),
        }
    }

    /// Reads one more token. What may change a channel gives the samples that are held back. A
    /// fault gives none, and leaves them held back.
    #[inline(always)]
    pub fn token(&mut self, at: u64, text: &[u8]) -> Result<Option<Run>, CaptureFault>
        ensures gives { TokenGives self.old self.new (at, text.now) result }
        ensures form { SameForm self.old self.new }
        ensures counts { Counts (given_in self.old) (given_in self.new) result }
    {
        match self.pending {
            Pending::Free => {
                if text.is_empty() {
                    return Err(CaptureFault::Token { at });
                }
                self.free_token(at, text[0], &text[1..])
            }
            Pending::Value(_) => Ok(self.take_value(text)),
            Pending::Skip(_) => {
                self.pending = Pending::Free;
                Ok(None)
            }
            Pending::Comment => {
                if b"$end".as_slice() == text {
                    self.pending = Pending::Free;
                    return Ok(None);
                }
                Ok(None)
            }
        }
    }

    // The place of a value that lacks its second token.
    fn hanging(&self) -> Option<u64>
        ensures { result ≡ hanging_of (pending_in self.now) }
    {
        match self.pending {
            Pending::Value(at) => Some(at),
            Pending::Skip(at) => Some(at),
            Pending::Free => None,
            Pending::Comment => None,
        }
    }

    /// The tokens end clean: the samples that are held back, and the last one, where there is one
    /// at the last time.
    pub fn end(&self) -> Result<Option<Run>, CaptureFault>
        ensures gives { EndGives self.now result }
        ensures counts { IfOk result (λ run. RunCounts (given_in self.now) (all_in self.now) run) }
    {
        match self.hanging() {
            Some(at) => return Err(CaptureFault::Token { at }),
            None => {}
        }
        let span = match self.span {
            Some(span) => span,
            None => return Ok(None),
        };
        let len = (span.last - span.start) / self.down + 1
            - samples_before(span.given - span.start, self.down);
        if len == 0 {
            return Ok(None);
        }
        Ok(Some(Run {
            value: self.word,
            len,
        }))
    }
}
