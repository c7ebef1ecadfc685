// The packet layer as the Function uses it. The code is in `ranges`, `packet`, `reader` and
// `writer`; the laws are in proofs/.
#![tactic(auto)]

ghost use Rattle.std.specs.Prelude.{◌≡◌};
ghost use Rattle.tlp.specs.Translations.{translation_at};

pub use packet::{
    Access, Body, Completion, Head, ITag, InvalidateCompletion, InvalidateRequest, MemoryRequest,
    Outcome, Packet, PageRequest, PrgIndex, PrgResponse, Refusal, Tag, TranslationRequest, number,
};
pub use ranges::{
    Range, Translation, coded, overlaps, range_from, region, region_number, relocate, rounded,
    size_of, translation_of, unit_bytes, unit_exponent, units_from, word_of,
};
pub use reader::{part_from, payload, read_packet};
pub use writer::write_packet;

// Translation k of a payload.
#[tactic(auto, unfolding(crate::specs::Translations::translation_at))]
pub fn translation_at(payload: &[u8], k: usize) -> Translation
    ensures { result ≡ translation_at payload.now k }
{
    ranges::translation_of(reader::qword(payload, k))
}
