// A stack that is bound.
use decoder_set::AnyDecoder;
use la_base::Pins;

/// The decoders of a stack that is bound to channels, in the order of its instances, and for each
/// the place of its parent, if it has one; then the channels that are bound, in the order of their
/// bits.
#[derive(Drop)]
pub struct Bound {
    pub machines: Vec<AnyDecoder>,
    pub parents: Vec<Option<u32>>,
    pub pins: Pins,
}
