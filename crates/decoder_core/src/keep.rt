// Decoders whose state is kept as bytes.
ghost use Rattle.std.specs.Prelude.{◌≡◌, ◌≤◌, ◌+◌, ℕ, List, length, true, false};
ghost use Rattle.la_base.specs.declared.wires.Packet.{Packet};
ghost use Rattle.decoder_core.specs.Inputs.{Item};
ghost use Rattle.decoder_core.specs.Keeping.{IsOnly, OneForm, OneSaved, Puts, StandsAs};

use crate::{Configured, LogicMachine, Machine, PacketMachine};
pub use plain_bytes::Saved;

/// A decoder of samples or of packets whose state between two of them is kept as bytes. Its setup
/// isn't among them.
pub trait Hold: Configured {
    /// It is put as these bytes.
    ghost puts: { Self → List ℕ → Type 0 };

    /// Appends its bytes, which are at most 192.
    fn put(&self, into: &mut Saved)
        requires { length into.old.items + 192 ≤ 240 }
        ensures { Puts puts self.now into.old.items into.new.items };

    /// Takes the state that bytes tell: it is then equal to each decoder of its setup that is put
    /// as these bytes. Answers false, and changes nothing, exactly where there is none.
    fn get(&mut self, bytes: &[u8]) -> bool
        ensures setup { Self.setup self.new ≡ Self.setup self.old }
        ensures got { result ≡ true → puts self.new bytes.now }
        ensures none { result ≡ false → (other : Self) → Self.setup other ≡ Self.setup self.old
            → ¬ puts other bytes.now }
        ensures same { result ≡ false → self.new ≡ self.old }
        ensures only { result ≡ true → IsOnly Self.setup puts self.new bytes.now };

    /// *One form*: it is put as one list of bytes.
    ghost one_form: { OneForm puts };
}

/// A machine whose state between two steps is kept as bytes. Its setup isn't among them.
pub trait Keep: Machine {
    /// It saves these bytes.
    ghost saves: { Self → List ℕ → Type 0 };

    /// Its bytes.
    fn save(&self) -> Saved
        ensures { saves self.now result.items };

    /// Takes the state that bytes tell: it has then consumed each input that a machine of its setup
    /// has consumed which saves these bytes. Answers false, and changes nothing, exactly where no
    /// machine of its setup saves them.
    fn load(&mut self, saved: &Saved) -> bool
        ensures setup { Self.setup self.new ≡ Self.setup self.old }
        ensures loaded { result ≡ true → saves self.new saved.now.items }
        ensures none { result ≡ false → (other : Self) → Self.setup other ≡ Self.setup self.old
            → ¬ saves other saved.now.items }
        ensures same { result ≡ false → self.new ≡ self.old }
        ensures stands { result ≡ true → StandsAs Self.setup Self.consumed saves self.new
            saved.now.items };

    /// *One saved*: two machines of one setup that have consumed one input save the same bytes.
    ghost one_saved: { OneSaved Self.setup Self.consumed saves };
}

/// The samples make the form: two decoders of samples of one setup that stand for the same samples
/// are put as the same bytes. (A law; nothing is done.)
pub fn samples_make_the_form<L: LogicMachine + Hold>(one: &L, other: &L)
    ensures { (list mine theirs : List ℕ) → L.setup one.now ≡ L.setup other.now
        → L.stands one.now list → L.stands other.now list
        → L.puts one.now mine → L.puts other.now theirs → mine ≡ theirs }
{}

/// The packets make the form: two decoders of packets of one setup that stand for the same packets
/// are put as the same bytes. (A law; nothing is done.)
pub fn packets_make_the_form<D: PacketMachine + Hold>(one: &D, other: &D)
    ensures { (list : List Packet) (mine theirs : List ℕ) → D.setup one.now ≡ D.setup other.now
        → D.stands one.now list → D.stands other.now list
        → D.puts one.now mine → D.puts other.now theirs → mine ≡ theirs }
{}
