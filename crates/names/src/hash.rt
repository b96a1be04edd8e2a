// A number for a name.
ghost use Rattle.std.specs.Prelude.{◌≡◌, ◌<◌};
ghost use Rattle.names.specs.Hash.{hash_of, SameHash};

// The slot at which a name is looked for first.
#[tactic(auto, unfolding(crate::specs::Hash::hash_of))]
pub(crate) fn hash(name: &[u8]) -> usize
    ensures value { result ≡ hash_of name.now }
    ensures below { result < 128 }
    ensures law { SameHash }
{
    let mixed = name.iter().fold(2166136261u32, |h, b| {
        (h ^ u32::from(*b)).wrapping_mul(16777619)
    });
    (mixed % 128) as usize
}
