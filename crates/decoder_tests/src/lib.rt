//! Tests of the decoders, of what stands below them, of checkpoints, and of links and stages, through
//! their public calls: what no contract says, and values from outside.
#![tactic(auto)]

#[cfg(test)]
mod channels;
#[cfg(test)]
mod check_words;
#[cfg(test)]
mod cuts;
#[cfg(test)]
mod decoders;
#[cfg(test)]
mod kinds;
#[cfg(test)]
mod lines;
#[cfg(test)]
mod moving;
#[cfg(test)]
mod outputs;
#[cfg(test)]
mod plain;
#[cfg(test)]
mod rates;
#[cfg(test)]
mod stages;
#[cfg(test)]
mod waits;
#[cfg(test)]
mod walks;
