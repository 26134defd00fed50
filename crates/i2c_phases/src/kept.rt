// A device and the phases of its bus as bytes.
ghost use Rattle.std.specs.Prelude.{◌≡◌, ◌≤◌};
ghost use Rattle.std.proofs.Common.{sym, ◌∙◌};
ghost use Rattle.plain_bytes.specs.Forms.{IsPutAs};
ghost use Rattle.i2c_phases.specs.Kept.{OneOfHeld, role_at, role_place, track_back, track_of};
ghost use Rattle.i2c_phases.specs.Kept.{track_parts};

use crate::{I2cDevice, Phased, Role, Track};
use decoder_core::{Hold, Saved};
use plain_bytes::{Parted, Plain, get_parts, put_parts};

// Whether a phase is open, where it starts, and the place of how far it has come.
type TrackParts = (u8, (u64, u8));

fn role_place(role: Role) -> u8
    ensures { result ≡ role_place role }
{
    match role {
        Role::Fresh => 0,
        Role::Late => 1,
        Role::AskedWrite => 2,
        Role::AskedRead => 3,
        Role::AskedCall => 4,
        Role::Writing => 5,
        Role::Reading => 6,
        Role::Called => 7,
        Role::WasReset => 8,
        Role::Other => 9,
    }
}

fn role_at(place: u8) -> Role
    ensures { result ≡ role_at place }
{
    match place {
        0 => Role::Fresh,
        1 => Role::Late,
        2 => Role::AskedWrite,
        3 => Role::AskedRead,
        4 => Role::AskedCall,
        5 => Role::Writing,
        6 => Role::Reading,
        7 => Role::Called,
        8 => Role::WasReset,
        _ => Role::Other,
    }
}

impl Parted for Track {
    type Parts = TrackParts;

    ghost parts_of = { λ kept. track_parts kept };

    ghost value_of = { λ parts. track_of parts };

    fn parts(&self) -> TrackParts {
        (self.begun as u8, (self.start, role_place(self.role)))
    }

    fn of_parts(parts: TrackParts) -> Track {
        let (begun, (start, place)) = parts;
        Track {
            begun: begun == 1,
            start,
            role: role_at(place),
        }
    }

    ghost comes_back = { λ kept fits. track_back kept };
}

/// A device whose state between two packets is kept as bytes. Its setup isn't among them.
pub trait HeldDevice: I2cDevice {
    /// What it holds besides its setup.
    type Held: Parted;

    /// What it holds.
    ghost held: { Self → Self.Held };

    fn held(&self) -> Self::Held
        ensures { result ≡ held self.now };

    /// Makes it hold this.
    fn hold(&mut self, what: Self::Held)
        ensures setup { Self.setup self.new ≡ Self.setup self.old }
        ensures held { held self.new ≡ what };

    /// Setup and what it holds make the device.
    ghost one_of_held: { OneOfHeld Self.setup held };

    /// What it holds has at most 160 bytes.
    ghost small: { Self.Held.Parts.most ≤ 160 };
}

// The parts of the phases, and those of what the device holds.
type Parts<D> = (TrackParts, <<D as HeldDevice>::Held as Parted>::Parts);

impl<D: HeldDevice> Phased<D> {
    // Makes it keep this of the phases, and the device hold this.
    fn take(&mut self, what: (Track, D::Held))
        ensures setup { D.setup self.new.device ≡ D.setup self.old.device }
        ensures kept { (self.new.kept, D.held self.new.device) ≡ what }
    {
        self.kept = what.0;
        self.device.hold(what.1);
    }
}

impl<D: HeldDevice> Hold for Phased<D> {
    ghost puts = { λ m bytes. IsPutAs ⟦<Parts<D> as Plain>⟧.fits ⟦<Parts<D> as Plain>⟧.bytes_of
        (track_parts m.kept, D.Held.parts_of (D.held m.device)) bytes };

    fn put(&self, into: &mut Saved) {
        put_parts(&(self.kept, self.device.held()), into);
    }

    fn get(&mut self, bytes: &[u8]) -> bool {
        match get_parts::<(Track, D::Held)>(bytes) {
            Some(what) => {
                self.take(what);
                true
            }
            None => false,
        }
    }

    ghost one_form = { λ machine one other mine theirs. mine.1 ∙ sym theirs.1 };
}
