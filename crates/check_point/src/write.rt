// A check is put together, and written as one line.
ghost use Rattle.std.specs.Prelude.{◌≡◌, ◌≤◌, ◌+◌, ◌*◌, ◌^◌, ◌++◌, ℕ, List, length, OnOk};
ghost use Rattle.std.specs.Io.KnownBytes.{Appends};
ghost use Rattle.la_io.specs.Causes.{AppendsFront, HasCause};
ghost use Rattle.check_point.specs.Checks.{IsCheckOf, PushesEntries, WritesCheck, check_line};
ghost use Rattle.hex.specs.Hex.{decode_of, encode_lower};

use arrayvec::ArrayVec;
use decoder_core::Keep;
use la_io::{Failed, Sink, write_whole};

/// The bytes of a check.
pub type Check = ArrayVec<u8, 2048>;

// Appends bytes. There is room for them, so that no error comes.
fn append(into: &mut Check, bytes: &[u8])
    requires { length into.old.items + length bytes.now ≤ 2048 }
    ensures { into.new.items ≡ into.old.items ++ bytes.now }
{
    let _ = into.try_extend_from_slice(bytes);
}

// Appends machines, one after another.
fn push_entries<M: Keep>(kinds: &[u8], machines: &[M], into: &mut Check)
    requires count { length kinds.now ≡ length machines.now }
    requires room { length into.old.items + 242 * length kinds.now ≤ 2048 }
    ensures { PushesEntries M.saves kinds.now machines.now into.old.items into.new.items }
{
    if let Some((place, other_kinds)) = kinds.split_first() {
        if let Some((machine, others)) = machines.split_first() {
            let saved = machine.save();
            into.push(*place);
            into.push(saved.len() as u8);
            append(into, saved.as_slice());
            push_entries(other_kinds, others, into);
        }
    }
}

// The word of bytes is read as these bytes. (A law; nothing is done.)
fn word_is_read_back(bytes: &[u8])
    ensures { decode_of (encode_lower bytes.now) ≡ Ok bytes.now }
{}

// The bytes of a check of these machines behind so many samples.
fn check_of<M: Keep>(samples: u64, machines: &[M], kinds: &[u8]) -> Check
    requires few { samples ≤ 2 ^ 59 }
    requires count { length kinds.now ≡ length machines.now }
    requires most { length kinds.now ≤ 8 }
    ensures { IsCheckOf M.saves samples kinds.now machines.now result.items }
{
    let mut check = Check::new();
    check.push(1);
    append(&mut check, &samples.to_be_bytes());
    check.push(kinds.len() as u8);
    push_entries(kinds, machines, &mut check);
    word_is_read_back(check.as_slice());
    check
}

// The line of a check. There is room for all its parts, so that no error comes.
fn line_of(check: &Check) -> ArrayVec<u8, 4200>
    ensures { result.items ≡ check_line check.now.items }
{
    let mut digits = [0u8; 4096];
    let len = 2 * check.len();
    let _ = hex::encode_to_slice(check.as_slice(), &mut digits[..len]);
    let mut line = ArrayVec::new();
    let _ = line.try_extend_from_slice(b"checkpoint: ");
    let _ = line.try_extend_from_slice(&digits[..len]);
    line.push(b'\n');
    line
}

/// Writes the line of a check: `checkpoint: `, its word in lower case, and a line feed. After
/// `Failed`, which comes only where the sink failed, a front of it is written.
pub fn write_check<K: Sink, M: Keep>(
    sink: &mut K,
    samples: u64,
    machines: &[M],
    kinds: &[u8],
) -> Result<(), Failed>
    requires few { samples ≤ 2 ^ 59 }
    requires count { length kinds.now ≡ length machines.now }
    requires most { length kinds.now ≤ 8 }
    ensures writes { WritesCheck M.saves samples kinds.now machines.now (K.written sink.old)
        (K.written sink.new) result }
    ensures cause { HasCause (K.faults sink.old) (K.faults sink.new) result }
    ensures goes_on { K.goes_on sink.old sink.new }
{
    let check = check_of(samples, machines, kinds);
    write_whole(sink, line_of(&check).as_slice())
}
