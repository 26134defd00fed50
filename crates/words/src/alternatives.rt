// What is wrong with the words that are no options, behind all words.
ghost use Rattle.std.specs.Prelude.{◌≡◌, map, option_map, All, IfOk};
ghost use Rattle.text_parts.specs.Chains.{chain_of};
ghost use Rattle.words.specs.Readable.{IsShort};
ghost use Rattle.words.specs.Settings.{clash, cond_fault, fault_behind, few_or_many, job_fault};
ghost use Rattle.words.specs.Settings.{too_many, words_taken};

use crate::kinds::WordCount;
use crate::{Format, Job, WordFault, WordWhy};
use cond_words::{CondError, read_alt};
use std::alloc::{AllocError, Global};
use text_parts::ChainWord;

// How many such words a job takes.
fn words_taken(job: Job) -> WordCount
    ensures { result ≡ words_taken job }
{
    match job {
        Job::Decode | Job::Part => WordCount {
            fewest: 1,
            most: 24,
        },
        Job::Find => WordCount { fewest: 1, most: 8 },
        Job::Make => WordCount { fewest: 0, most: 0 },
    }
}

// What a word is that is one too many, where there may be so many.
fn too_many(most: usize) -> WordWhy
    ensures { result ≡ too_many most }
{
    if most == 0 {
        WordWhy::Extra
    } else {
        WordWhy::Many
    }
}

/// The fault where there are too few such words, or too many; there are `count` words in all.
pub fn few_or_many(taken: WordCount, count: u32, chains: &[ChainWord]) -> Option<WordFault>
    ensures { result ≡ few_or_many taken count (map chain_of chains.now) }
{
    if chains.len() < taken.fewest {
        return Some(WordFault {
            word: count,
            at: 0,
            why: WordWhy::Few,
        });
    }
    let chain = chains.get(taken.most)?;
    Some(WordFault {
        word: chain.word,
        at: 0,
        why: too_many(taken.most),
    })
}

// The fault of the first alternative that has one.
fn cond_fault(alloc: Global, chains: &[ChainWord]) -> Result<Option<WordFault>, AllocError>
    requires { All IsShort chains.now }
    ensures { IfOk result (λ fault. fault ≡ cond_fault (map chain_of chains.now)) }
{
    for chain in chains {
        match read_alt(alloc, chain.text.as_str()) {
            Ok(_) => {}
            Err(CondError::Fault(fault)) => {
                return Ok(Some(WordFault {
                    word: chain.word,
                    at: fault.at,
                    why: WordWhy::Cond,
                }));
            }
            Err(CondError::NoMemory) => return Err(AllocError),
        }
    }
    Ok(None)
}

// What the job finds wrong with its words.
fn job_fault(alloc: Global, job: Job, chains: &[ChainWord]) -> Result<Option<WordFault>, AllocError>
    requires { All IsShort chains.now }
    ensures { IfOk result (λ fault. fault ≡ job_fault job (map chain_of chains.now)) }
{
    match job {
        Job::Decode | Job::Make | Job::Part => Ok(None),
        Job::Find => cond_fault(alloc, chains),
    }
}

/// What is wrong behind all the words, of which there are `count`.
pub fn fault_behind(
    alloc: Global,
    count: u32,
    job: Job,
    chains: &[ChainWord],
) -> Result<Option<WordFault>, AllocError>
    requires { All IsShort chains.now }
    ensures { IfOk result (λ fault. fault ≡ fault_behind count job (map chain_of chains.now)) }
{
    if let Some(fault) = few_or_many(words_taken(job), count, chains) {
        return Ok(Some(fault));
    }
    job_fault(alloc, job, chains)
}

/// The fault of a part whose capture isn't raw, or of which binary data is wanted; there are
/// `count` words in all.
pub fn clash(count: u32, job: Job, format: Format, binary: Option<&ChainWord>) -> Option<WordFault>
    ensures { result
        ≡ clash count job format (option_map (λ wanted. chain_of wanted.now) binary.entry) }
{
    match (job, format, binary) {
        (Job::Decode | Job::Find | Job::Make, _, _) => None,
        (Job::Part, Format::Raw, None) => None,
        (Job::Part, _, _) => Some(WordFault {
            word: count,
            at: 0,
            why: WordWhy::Clash,
        }),
    }
}
