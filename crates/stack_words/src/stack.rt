// A stack of decoders.
ghost use Rattle.std.specs.Prelude.{◌≡◌, ◌<◌, map, vec_len, true, IfSome};
ghost use Rattle.std.proofs.Props.{props};
ghost use Rattle.stack_words.specs.Meaning.{instance_of};
ghost use Rattle.stack_words.specs.Sound.{is_sound};

use crate::instance::Instance;

/// Decoders, each on samples or on an earlier one; which of them are shown, and whose binary data
/// is wanted. Instances are numbered from 0 in the order of the words.
#[derive(Drop)]
pub struct Stack {
    pub(crate) instances: Vec<Instance>,
    pub(crate) shown: Option<Vec<u32>>,
    pub(crate) binary: Option<(u32, u16)>,
    ghost sound: { is_sound (map instance_of instances.items) ≡ true },
    ghost within: { IfSome binary (λ b. b.0 < vec_len instances) } by { Prim.hlevel props },
}
