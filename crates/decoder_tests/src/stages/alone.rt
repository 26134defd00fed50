// What a decoder gives that is fed alone, without links.
use decoder_core::{Machine, Outs};
use la_base::{Feed, Mark, Out};
use std::alloc::{AllocError, Global};

/// The notes and pieces of a decoder, and its packets as feeds for those that stand on it.
#[derive(Drop)]
pub struct Given {
    pub marks: Vec<Mark>,
    pub feeds: Vec<Feed>,
}

fn put(given: &mut Given, outs: &[Out]) -> Result<(), AllocError> {
    for out in outs {
        match *out {
            Out::Note(note) => given.marks.push(Mark::Note(note))?,
            Out::Piece(piece) => given.marks.push(Mark::Piece(piece))?,
            Out::Packet(packet) => given.feeds.push(Feed::Packet(packet))?,
        }
    }
    Ok(())
}

pub fn given_alone<M: Machine>(
    alloc: Global,
    machine: &mut M,
    feeds: &[Feed],
) -> Result<Given, AllocError> {
    let mut given = Given {
        marks: Vec::new(alloc),
        feeds: Vec::new(alloc),
    };
    for feed in feeds {
        let mut left = Some(*feed);
        for _ in 0..100_000u32 {
            let Some(rest) = left else { break };
            let mut outs = Outs::new();
            left = machine.step(rest, &mut outs);
            put(&mut given, outs.list())?;
        }
    }
    Ok(given)
}

/// The notes and pieces among marks, and how many floors stand between them.
pub fn shown(alloc: Global, marks: &[Mark]) -> Result<(Vec<Mark>, u32), AllocError> {
    let mut notes = Vec::new(alloc);
    let mut floors = 0u32;
    for mark in marks {
        match *mark {
            Mark::Note(note) => notes.push(Mark::Note(note))?,
            Mark::Piece(piece) => notes.push(Mark::Piece(piece))?,
            Mark::Floor(_) => floors = floors.saturating_add(1),
            Mark::End => {}
        }
    }
    Ok((notes, floors))
}
