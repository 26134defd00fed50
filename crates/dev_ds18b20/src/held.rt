// What a decoder of a thermometer is made of.
use crate::Bytes;
use packet_walks::Transacting;

/// A thermometer has no options.
#[derive(Clone, Copy, PartialEq, Eq)]
pub struct ProbeOpts {}

/// How far a transaction has come.
#[derive(Clone, Copy, PartialEq, Eq)]
pub enum Stage {
    /// It isn't the thermometer's, or not yet.
    Foreign,
    /// It is, and its next byte is the function.
    Own,
    /// The scratchpad is read.
    Reads,
    /// The scratchpad is written.
    Writes,
    /// Further bytes say nothing.
    Told,
}

/// A transaction that is open: where its reset starts, how far it has come, and the bytes of a
/// scratchpad so far.
#[derive(Drop)]
pub struct Transaction {
    pub(crate) start: u64,
    pub(crate) stage: Stage,
    pub(crate) bytes: Bytes,
}

/// A decoder of a thermometer between two packets.
pub type Probe = Transacting<Transaction>;
