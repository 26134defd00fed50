//! Tests of captures, words, stacks and shelves through their public calls, and of whole runs that are no
//! rows of `run_rows`: what no contract says, and values from outside.
#![tactic(auto)]

#[cfg(test)]
mod byte_lines;
#[cfg(test)]
mod captures;
#[cfg(test)]
mod changes;
#[cfg(test)]
mod command_words;
#[cfg(test)]
mod csv_captures;
#[cfg(test)]
mod floors;
#[cfg(test)]
mod forms;
#[cfg(test)]
mod listers;
#[cfg(test)]
mod made;
#[cfg(test)]
mod programs;
#[cfg(test)]
mod rows;
#[cfg(test)]
mod runs;
#[cfg(test)]
mod searches;
#[cfg(test)]
mod side_by_side;
#[cfg(test)]
mod stacks;
#[cfg(test)]
mod streaming;
#[cfg(test)]
mod streams;
#[cfg(test)]
mod tables;
#[cfg(test)]
mod threads;
#[cfg(test)]
mod tokens;
#[cfg(test)]
mod views;
