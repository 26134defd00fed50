// The job `make`: a made capture is decoded, and what its decoders give is counted.
ghost use Rattle.std.specs.Prelude.{◌≡◌, ◌≤◌, ◌<◌, ◌^◌, ◌*◌, IfOk, map};
ghost use Rattle.text_parts.specs.Chains.{chain_of};
ghost use Rattle.listing_out.specs.Summaries.{summary};
ghost use Rattle.stack_words.specs.Stacks.{instances_in};
ghost use Rattle.run_status.specs.Causes.{SinkCause};
ghost use Rattle.make_job.specs.Making.{MadeBy, made_chains, made_listing};
ghost use Rattle.make_job.specs.MadeTrees.{IsMadeTree, made_instances, made_names};

use crate::made_feed::MadeFeed;
use crate::tally_taker::TallyTaker;
use cond_words::BindError;
use decoder_core::RunEnd;
use la_base::{Names, NoMemory, Rate};
use la_io::{Failed, Sink};
use listing_out::write_summary;
use run_status::Status;
use stack_direct::run_direct;
use stack_spec::{Bound, bind};
use stack_words::{Stack, StackError, read_stack};
use std::alloc::Global;
use text_parts::ChainWord;

// A million samples a second.
const RATE: Rate = Rate {
    num: 1_000_000,
    den: 1,
};

// The samples of a transaction.
const BLOCK: u64 = 120;

// A word of the stack.
fn chain(alloc: Global, word: u32, text: &str) -> Result<ChainWord, NoMemory>
    ensures { IfOk result (λ chain. chain_of chain ≡ record { word = word; text = text.now }) }
{
    match String::from_str(alloc, text) {
        Ok(text) => Ok(ChainWord { word, text }),
        Err(_) => Err(NoMemory),
    }
}

// The words of the stack that reads a made capture.
fn chains(alloc: Global) -> Result<Vec<ChainWord>, NoMemory>
    ensures { IfOk result (λ chains. map chain_of chains.items ≡ made_chains) }
{
    let mut chains = Vec::new(alloc);
    chains.push(chain(alloc, 0, "i2c:scl=D0:sda=D1")?)?;
    chains.push(chain(alloc, 1, "uart:rx=D2:baud=100000")?)?;
    Ok(chains)
}

// That stack. It has no fault.
fn made_stack(alloc: Global) -> Result<Stack, NoMemory>
    ensures { IfOk result (λ stack. instances_in stack ≡ made_instances) }
{
    let chains = chains(alloc)?;
    match read_stack(alloc, &chains, None, None) {
        Ok(stack) => Ok(stack),
        Err(StackError::Fault(_)) => unreachable!(),
        Err(StackError::NoMemory) => Err(NoMemory),
    }
}

// The names of the channels of a made capture.
fn names(alloc: Global) -> Result<Names, NoMemory>
    ensures { IfOk result (λ names. names ≡ made_names) }
{
    let mut names = Names::new(alloc);
    names.push(b"D0")?;
    names.push(b"D1")?;
    names.push(b"D2")?;
    Ok(names)
}

// The decoders that read a made capture. Its stack can be bound.
fn made_tree(alloc: Global) -> Result<Bound, NoMemory>
    ensures { IfOk result IsMadeTree }
{
    let stack = made_stack(alloc)?;
    let names = names(alloc)?;
    match bind(alloc, &stack, &names, RATE) {
        Ok(bound) => Ok(bound),
        Err(BindError::Fault(_)) => unreachable!(),
        Err(BindError::NoMemory) => Err(NoMemory),
    }
}

// Decodes a made capture with its decoders, and counts the notes that they give. It takes no
// memory.
fn count_notes(bound: Bound, seed: u64, count: u64) -> TallyTaker
    requires tree { IsMadeTree bound }
    requires seed { seed < 2 ^ 31 }
    requires count { count ≤ 1000000 }
    ensures { summary (120 * count) result.bus result.line ≡ made_listing seed count }
{
    let mut machines = bound.machines;
    let mut feed = MadeFeed::new(seed, count);
    let mut taker = TallyTaker::new();
    match run_direct(&mut machines, &bound.parents, &mut feed, &mut taker) {
        RunEnd::Ended => taker,
        RunEnd::Stopped => unreachable!(),
    }
}

/// Decodes a made capture of this seed with so many transactions, and writes three lines: how many
/// samples it has, and for its bus and its serial line how many notes they give, and the sum of
/// their values. It reads nothing.
pub fn make<K: Sink>(alloc: Global, seed: u64, count: u64, sink: &mut K) -> Status
    requires seed { seed < 2 ^ 31 }
    requires count { count ≤ 1000000 }
    ensures makes { MadeBy seed count (K.written sink.old) (K.written sink.new) result }
    ensures write { SinkCause (K.faults sink.old) (K.faults sink.new) result }
{
    let bound = match made_tree(alloc) {
        Ok(bound) => bound,
        Err(NoMemory) => return Status::NoMemory,
    };
    let counted = count_notes(bound, seed, count);
    match write_summary(sink, BLOCK * count, counted.bus, counted.line) {
        Ok(()) => Status::Done,
        Err(Failed) => Status::WriteFault,
    }
}
