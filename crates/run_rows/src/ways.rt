// The ways in which a row is run.
use ldecode::Pacer;

/// A way to run a row: what is added to its words, and how its capture is cut.
pub struct Way {
    pub name: &'static str,
    /// The option that is added, where the words haven't got it, and its value.
    pub option: (&'static str, &'static str),
    /// The most bytes of a read and of a write, and the most pieces of a capture for a run of one
    /// word, whose reads may therefore give more; of more words, as many fewer.
    pub most: usize,
    pub pieces: usize,
    /// Whether a read may have to wait, as one of a pipe and not of a file.
    pub waits: bool,
    /// The most bytes that are written.
    pub room: usize,
    /// How much a decoder does in a turn of its thread.
    pub turns: Turns,
}

/// How much a decoder does in a turn of its thread.
#[derive(Clone, Copy)]
pub enum Turns {
    Many,
    /// One act, or two, by the turn.
    Few,
}

impl Way {
    /// The most bytes of a read of a capture of so many, for a run of so many words.
    pub fn piece(&self, length: usize, words: usize) -> usize {
        let pieces = self.pieces / words.max(1);
        self.most.max(length.div_ceil(pieces.max(1)))
    }
}

impl Pacer for Turns {
    fn turn(&self, _stage: u32, turn: u64) -> u32 {
        match self {
            Turns::Many => 64,
            Turns::Few => 1 + (turn % 2) as u32,
        }
    }
}

// With threads each read is handed from thread to thread and waits for all, which takes a while: the
// longer the more decoders there are, and the busier the machine is.
const PIECES: usize = 500;

/// The ways, of which the first and the fourth read the capture in one piece, as a file.
pub const WAYS: [Way; 6] = [
    Way {
        name: "with threads",
        option: ("--threads", "yes"),
        most: WHOLE,
        pieces: PIECES,
        waits: false,
        room: WHOLE,
        turns: Turns::Many,
    },
    Way {
        name: "with threads, byte by byte",
        option: ("--threads", "yes"),
        most: 1,
        pieces: PIECES,
        waits: true,
        room: WHOLE,
        turns: Turns::Many,
    },
    Way {
        name: "with threads and rings of one slot, in pieces of 7 bytes",
        option: ("--ring", "1"),
        most: 7,
        pieces: PIECES,
        waits: true,
        room: WHOLE,
        turns: Turns::Few,
    },
    Way {
        name: "without threads",
        option: ("--threads", "no"),
        most: WHOLE,
        pieces: WHOLE,
        waits: false,
        room: WHOLE,
        turns: Turns::Many,
    },
    Way {
        name: "without threads, byte by byte",
        option: ("--threads", "no"),
        most: 1,
        pieces: WHOLE,
        waits: true,
        room: WHOLE,
        turns: Turns::Many,
    },
    Way {
        name: "without threads, in pieces of 7 bytes",
        option: ("--threads", "no"),
        most: 7,
        pieces: WHOLE,
        waits: true,
        room: WHOLE,
        turns: Turns::Many,
    },
];

/// How parts of a capture are run, of which there are many, and a row whose listing isn't written.
pub const ALONE: Way = Way {
    name: "without threads",
    option: ("--threads", "no"),
    most: WHOLE,
    pieces: WHOLE,
    waits: true,
    room: 1 << 16,
    turns: Turns::Many,
};

/// More than any capture or listing has.
pub const WHOLE: usize = 1 << 20;
