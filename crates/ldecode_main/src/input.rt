// Standard input, which tells whether a read of it may have to wait.
use la_io::{Failed, Source, StdSource};
use std::io::Read;

/// A source over standard input. No read of a file waits. Of a pipe or a terminal it is a guess: one
/// that filled its room at the last read is taken to have more.
#[derive(Drop)]
pub struct StandardInput<R: Read> {
    inner: StdSource<R>,
    is_file: bool,
    was_filled: bool,
}

impl<R: Read> StandardInput<R> {
    /// Nothing was read of it yet.
    pub fn new(reader: R, is_file: bool) -> StandardInput<R> {
        StandardInput {
            inner: StdSource::new(reader),
            is_file,
            was_filled: false,
        }
    }
}

impl<R: Read> Source for StandardInput<R> {
    ghost left = { λ s. ⟦<StdSource<R> as Source>⟧.left s.inner };

    ghost faults = { λ s. ⟦<StdSource<R> as Source>⟧.faults s.inner };

    fn read(&mut self, buf: &mut [u8]) -> Result<usize, Failed> {
        let room = buf.len();
        let came = self.inner.read(buf);
        self.was_filled = came == Ok(room);
        came
    }

    fn may_wait(&self) -> bool {
        !self.is_file
    }

    fn waits_now(&self) -> bool {
        !self.was_filled
    }
}
