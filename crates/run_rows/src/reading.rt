// The rows of a text.
use crate::row::{Draft, Row};
use anyhow::{Error, Result};
use std::alloc::Global;

/// A row, or why one can't be read, with its line.
#[derive(Drop)]
pub enum Found {
    Row(Row),
    Fault(String),
}

// A row that is being read, or whose statement at a line has a fault.
#[derive(Drop)]
enum State {
    None,
    Draft(Draft),
    Fault(String),
}

fn fault(alloc: Global, line: u32, error: &Error) -> Result<String> {
    Ok(format!(in alloc; "{line}: can't be read: {error}")?)
}

// What is found of a row behind its last statement.
fn finish(alloc: Global, state: State, rows: &mut Vec<Found>) -> Result<()> {
    let found = match state {
        State::None => return Ok(()),
        State::Fault(text) => Found::Fault(text),
        State::Draft(draft) => {
            let line = draft.line();
            match draft.finish() {
                Ok(row) => Found::Row(row),
                Err(error) => Found::Fault(fault(alloc, line, &error)?),
            }
        }
    };
    rows.push(found)?;
    Ok(())
}

// Behind one more statement.
fn more(alloc: Global, state: State, line: u32, name: &str, text: &str) -> Result<State> {
    let added = match state {
        State::None => Err(Error::msg("stands before the first row")),
        State::Fault(text) => return Ok(State::Fault(text)),
        State::Draft(mut draft) => match draft.add(name, text) {
            Ok(()) => Ok(draft),
            Err(error) => Err(error),
        },
    };
    match added {
        Ok(draft) => Ok(State::Draft(draft)),
        Err(error) => Ok(State::Fault(fault(alloc, line, &error)?)),
    }
}

// What is read of a row at its first line.
fn begun(alloc: Global, line: u32, draft: Result<Draft>) -> Result<State> {
    match draft {
        Ok(draft) => Ok(State::Draft(draft)),
        Err(error) => Ok(State::Fault(fault(alloc, line, &error)?)),
    }
}

/// The rows of a text. A line that begins with `#` is a comment, and one that begins with `row`, or
/// with `refused`, begins a row.
pub fn rows_of(alloc: Global, text: &str) -> Result<Vec<Found>> {
    let mut rows = Vec::new(alloc);
    let mut state = State::None;
    let mut number: u32 = 0;
    for line in text.split('\n') {
        number = number.saturating_add(1);
        let (name, rest) = line.split_once(' ').unwrap_or((line, ""));
        if line.is_empty() || line.starts_with('#') {
            continue;
        }
        state = match name {
            "row" => {
                finish(alloc, state, &mut rows)?;
                begun(alloc, number, Draft::new(alloc, number, rest))?
            }
            "refused" => {
                finish(alloc, state, &mut rows)?;
                begun(alloc, number, Draft::refused(alloc, number, rest))?
            }
            _ => more(alloc, state, number, name, rest)?,
        };
    }
    finish(alloc, state, &mut rows)?;
    Ok(rows)
}
