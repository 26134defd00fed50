// Stacks of chains that no words give: of more chains than words let through, and of chains and names that are empty or begin
// with a hyphen. All others are in the rows of `run_rows`.
ghost use Rattle.std.specs.Prelude.{◌≤◌, All, IfOk, length};
ghost use Rattle.std.specs.String.{string_bytes};

use crate::rows::parts_of;
use cond_words::{BindFault, BindWhy};
use decoder_core::OptFault;
use stack_words::{ChainWord, Stack, StackError, StackFault, StackWhy, read_stack};
use std::alloc::Global;
use std::test::Fail;

// A row has between brackets the chains, and behind a bar the option that names nothing, whose word is 100; before the brackets
// how many buses stand in front; and behind them how many instances there are, or the word at fault, the place of the fault in
// it, and why.
const ROWS: &str = "\
[] 0 0 Unknown
[ i2c-1] 0 0 Unknown
[-] 0 0 NoParent
[-:scl=D0:sda=D1] 0 0 NoParent
[i2c:scl=D0:sda=D1|show] 100 0 Unknown
[i2c:scl=D0:sda=D1|binary] 100 0 Unknown
24[i2c-24] 24 instances
24[i2c:scl=D0:sda=D1] 24 0 Many
24[i2c] 24 0 Many
24[i2c-3,i2c] 24 6 Many
24[x] 24 0 Unknown
24[i2c-25] 24 0 NoParent";

/// A word of so many, whose text is short.
pub fn word(alloc: Global, word: u32, text: &str) -> Result<ChainWord, Fail>
    ensures { IfOk result (λ chain. length (string_bytes chain.text) ≤ 4096) }
{
    if text.len() > 4096 {
        return Err("a text is too long".into());
    }
    let text = String::from_str(alloc, text)?;
    Ok(ChainWord { word, text })
}

// So many buses, and the chains of a text, which stand between single blanks: two blanks have an empty chain between them.
fn chains_of(alloc: Global, count: &str, line: &str) -> Result<Vec<ChainWord>, Fail>
    ensures { IfOk result (λ chains.
        All (λ chain. length (string_bytes chain.text) ≤ 4096) chains.items) }
{
    let mut chains = Vec::new(alloc);
    let count = count.parse::<u32>().unwrap_or(0);
    for number in 0..count {
        chains.push(word(alloc, number, "i2c:scl=D0:sda=D1")?)?;
    }
    let mut number = count;
    for text in line.split(' ') {
        chains.push(word(alloc, number, text)?)?;
        number = number.wrapping_add(1);
    }
    Ok(chains)
}

// What so many buses and the chains of a line give, where an option of this name names nothing.
fn read(
    alloc: Global,
    count: &str,
    line: &str,
    option: &str,
) -> Result<Result<Stack, StackError>, Fail> {
    let chains = chains_of(alloc, count, line)?;
    let nothing = word(alloc, 100, "")?;
    let show = if option == "show" {
        Some(&nothing)
    } else {
        None
    };
    let binary = if option == "binary" {
        Some(&nothing)
    } else {
        None
    };
    Ok(read_stack(alloc, &chains, show, binary))
}

// What the chains of a row give.
fn told(alloc: Global, count: &str, line: &str) -> Result<String, Fail> {
    let (line, option) = line.split_once('|').unwrap_or((line, ""));
    match read(alloc, count, line, option)? {
        Ok(stack) => Ok(format!(in alloc; "{} instances", stack.count())?),
        Err(StackError::Fault(fault)) => {
            Ok(format!(in alloc; "{} {} {:?}", fault.word, fault.at, fault.why)?)
        }
        Err(StackError::NoMemory) => Err("no memory".into()),
    }
}

#[test]
fn chains_that_no_words_give(rt: HostRuntime) -> Result<(), Fail> {
    for row in ROWS.split('\n') {
        let (count, line, want) = parts_of(row);
        assert!(rt; told(rt.alloc(), count, line)?.as_str() == want, "{row}");
    }
    Ok(())
}

#[test]
fn what_faults_say(rt: HostRuntime) -> Result<(), Fail> {
    let alloc = rt.alloc();
    let fault = StackFault {
        word: 2,
        at: 18,
        why: StackWhy::Mismatch,
    };
    let unbound = BindFault {
        entry: 3,
        item: 1,
        why: BindWhy::Unknown,
    };
    let told = format!(in alloc; "{fault}; {unbound}")?;
    assert!(rt;
        told.as_str()
            == "word 2 byte 18: it can't stand on this decoder; entry 3 item 1: no such channel"
    );
    let told = format!(in alloc; "{}; {}", OptFault::Range, OptFault::Rate)?;
    assert!(rt; told.as_str() == "an option is out of range; the rate is too low");
    Ok(())
}
