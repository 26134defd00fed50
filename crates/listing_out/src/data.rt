// Binary data.
ghost use Rattle.std.specs.Prelude.{◌≡◌, ◌∷◌, [], OnOk};
ghost use Rattle.std.specs.Io.KnownBytes.{Appends};
ghost use Rattle.la_io.specs.Causes.{AppendsFront, HasCause};

use la_base::Piece;
use la_io::{Failed, Sink, write_whole};

/// Writes bytes of binary data and nothing else. After `Failed` a front of them is written.
pub fn write_data<K: Sink>(sink: &mut K, bytes: &[u8]) -> Result<(), Failed>
    ensures whole { OnOk result (Appends (K.written sink.old) (K.written sink.new) bytes.now) }
    ensures front { AppendsFront (K.written sink.old) (K.written sink.new) bytes.now }
    ensures cause { HasCause (K.faults sink.old) (K.faults sink.new) result }
    ensures goes_on { K.goes_on sink.old sink.new }
{
    write_whole(sink, bytes)
}

/// Writes the byte of a piece of binary data. After `Failed` it isn't written.
pub fn write_piece<K: Sink>(sink: &mut K, piece: Piece) -> Result<(), Failed>
    ensures whole { OnOk result
        (Appends (K.written sink.old) (K.written sink.new) (piece.byte ∷ [])) }
    ensures front { AppendsFront (K.written sink.old) (K.written sink.new) (piece.byte ∷ []) }
    ensures cause { HasCause (K.faults sink.old) (K.faults sink.new) result }
    ensures goes_on { K.goes_on sink.old sink.new }
{
    write_data(sink, &[piece.byte])
}
