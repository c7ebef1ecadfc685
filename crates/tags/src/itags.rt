// Sets of ITags as vectors, ITag 0 in the lowest bit. An ITag has five bits.
ghost use Rattle.std.specs.Prelude.{◌≡◌};
ghost use Rattle.tags.specs.Itags.{is_in, with_itag, without};

use packet::ITag;

// Is an ITag in a vector?
#[tactic(auto, unfolding(crate::specs::Itags::is_in))]
pub fn has(v: u32, itag: ITag) -> bool
    ensures { result ≡ is_in v itag }
{
    (v >> (itag.0 % 32)) % 2 == 1
}

// A vector with one more ITag.
#[tactic(auto, using(lemmas::proofs::Powers::one_shl), unfolding(crate::specs::Itags::with_itag))]
pub fn with(v: u32, itag: ITag) -> u32
    ensures { result ≡ with_itag v itag }
{
    v | 1u32 << (itag.0 % 32)
}

// A vector without the ITags of another.
#[tactic(auto, unfolding(crate::specs::Itags::without))]
pub fn without(v: u32, others: u32) -> u32
    ensures { result ≡ without v others }
{
    v - (v & others)
}
