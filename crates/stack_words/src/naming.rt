// The names of instances.
ghost use Rattle.std.specs.Prelude.{◌≡◌, ◌≤◌, ◌<◌, length, map, IfSome};
ghost use Rattle.std.specs.List.{position};
ghost use Rattle.std.specs.Str.{bytes_eq};
ghost use Rattle.stack_words.specs.Instances.{name_of, next_number, place_named, same_kind};
ghost use Rattle.stack_words.specs.Meaning.{instance_of};

use crate::instance::Instance;
use kind_table::{Kind, kind_name};
use line_text::LineBuf;

// Whether an instance has this name: its kind, a hyphen, and its number within the kind.
#[tactic(auto, using(line_text::proofs::Widths::decimal_room))]
fn is_named(instance: &Instance, name: &[u8]) -> bool
    ensures { result ≡ bytes_eq (name_of (instance_of instance.now)) name.now }
{
    let mut buf = LineBuf::new();
    buf.push_bytes(kind_name(instance.kind).as_bytes());
    buf.push_bytes(b"-");
    buf.push_dec(u64::from(instance.number));
    buf.bytes() == name
}

// The place of the first instance of this name.
fn position_named(instances: &[Instance], name: &[u8]) -> Option<usize>
    ensures place { result
        ≡ position (λ instance. bytes_eq (name_of (instance_of instance)) name.now) instances.now }
    ensures within { IfSome result (λ place. place < length instances.now) }
{
    instances
        .iter()
        .position(|instance| is_named(instance, name))
}

/// The place of the instance of this name.
pub fn place_named(instances: &[Instance], name: &[u8]) -> Option<u32>
    requires { length instances.now ≤ 24 }
    ensures place { result ≡ place_named (map instance_of instances.now) name.now }
    ensures within { IfSome result (λ place. place < length instances.now) }
{
    match position_named(instances, name) {
        Some(place) => Some(place as u32),
        None => None,
    }
}

// Whether two kinds are the same.
fn same_kind(one: Kind, other: Kind) -> bool
    ensures { result ≡ same_kind one other }
{
    one == other
}

/// The number of the next instance of a kind, counted from 1.
pub fn next_number(before: &[Instance], kind: Kind) -> u32
    requires { length before.now ≤ 24 }
    ensures { result ≡ next_number (map instance_of before.now) kind }
{
    let earlier = before
        .iter()
        .filter(|instance| same_kind(instance.kind, kind))
        .count();
    earlier as u32 + 1
}
