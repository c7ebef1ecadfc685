// The 32 tags, and sets of ITags.
#![tactic(auto)]

pub mod itags;

ghost use Rattle.std.specs.Prelude.{◌≡◌};
ghost use Rattle.std.specs.List.{position};
ghost use Rattle.tags.specs.Tags.{new_translation, new_read, all_free, is_free_state, free_tag, tag_state, set_tag, translation_range, read_range, pending_overlaps, delaying, invalidated_if, invalidated_tags, stale_state, all_stale, delayed_by, delayed_itags};

use packet::{ITag, Tag};
use ranges::Range;

// An outstanding Translation Request: its address, how many units beyond the first, the STU, and
// whether it is stale. After the first of two packets also the exponent of the translations' size,
// the Byte Count of both packets and the bytes due in the second; otherwise these are 0. They stand
// in no Option, since contracts speak of every value of the three.
#[derive(Clone, Copy, PartialEq, Eq, Debug)]
pub struct PendingTranslation {
    pub address: u64,
    pub further: u8,
    pub stu: u8,
    pub stale: bool,
    pub size: u32,
    pub whole: u16,
    pub due: u16,
}

// An outstanding read: the untranslated address, its bytes and how many are still due, whether it
// was sent with a translated address, and the ITags that it delays.
#[derive(Clone, Copy, PartialEq, Eq, Debug)]
pub struct PendingRead {
    pub address: u64,
    pub bytes: u16,
    pub due: u16,
    pub translated: bool,
    pub itags: u32,
}

#[derive(Clone, Copy, PartialEq, Eq, Debug)]
pub enum TagState {
    Free,
    Translate(PendingTranslation),
    Read(PendingRead),
}

impl PendingTranslation {
    // The range that a Translation Request asks for.
    #[tactic(auto, unfolding(crate::specs::Tags::translation_range))]
    pub fn range(&self) -> Range
        ensures { result ≡ translation_range self.now }
    {
        ranges::units_from(self.address, self.further, self.stu)
    }
}

impl PendingRead {
    // The range that a read asks for.
    #[tactic(auto, unfolding(crate::specs::Tags::read_range))]
    fn span(&self) -> Range
        ensures { result ≡ read_range self.now }
    {
        ranges::range_from(self.address, self.bytes.saturating_sub(1) as u64)
    }

    fn delaying(self, itag: ITag) -> PendingRead
        ensures { result ≡ delaying itag self }
    {
        PendingRead {
            itags: itags::with(self.itags, itag),
            ..self
        }
    }
}

impl TagState {
    fn is_free(&self) -> bool
        ensures { result ≡ is_free_state self.now }
    {
        matches!(self, TagState::Free)
    }

    // Does the outstanding request overlap an invalidated range? Untranslated reads never do.
    #[tactic(auto, unfolding(crate::specs::Tags::pending_overlaps))]
    fn overlaps(&self, range: Range) -> bool
        ensures { result ≡ pending_overlaps range self.now }
    {
        match self {
            TagState::Free => false,
            TagState::Translate(t) => ranges::overlaps(t.range(), range),
            TagState::Read(f) => f.translated && ranges::overlaps(f.span(), range),
        }
    }

    // The state after an invalidation: where the request overlaps the range, a Translation Request is
    // stale, and a read delays the ITag.
    fn invalidated(self, range: Range, itag: ITag) -> TagState
        ensures { result ≡ invalidated_if range itag self }
    {
        match self {
            TagState::Translate(_) if self.overlaps(range) => self.stale(),
            TagState::Read(f) if self.overlaps(range) => TagState::Read(f.delaying(itag)),
            _ => self,
        }
    }

    // The state in which a Translation Request is stale.
    fn stale(self) -> TagState
        ensures { result ≡ stale_state self }
    {
        match self {
            TagState::Translate(t) => TagState::Translate(PendingTranslation { stale: true, ..t }),
            _ => self,
        }
    }

    // The ITags that the request delays.
    fn delayed(&self) -> u32
        ensures { result ≡ delayed_by self.now }
    {
        match self {
            TagState::Read(f) => f.itags,
            _ => 0,
        }
    }
}

// 32 free tags.
pub fn all_free() -> [TagState; 32]
    ensures { result ≡ all_free }
{
    [TagState::Free; 32]
}

// A new Translation Request for the unit that holds an address and the `further` units after it.
pub fn new_translation(address: u64, further: u8, stu: u8) -> TagState
    ensures { result ≡ new_translation address further stu }
{
    TagState::Translate(PendingTranslation {
        address,
        further,
        stu,
        stale: false,
        size: 0,
        whole: 0,
        due: 0,
    })
}

// A new read, with all its bytes due.
pub fn new_read(address: u64, bytes: u16, translated: bool) -> TagState
    ensures { result ≡ new_read address bytes translated }
{
    TagState::Read(PendingRead {
        address,
        bytes,
        due: bytes,
        translated,
        itags: 0,
    })
}

fn free_place(tags: &[TagState; 32]) -> Option<usize>
    ensures { result ≡ position is_free_state tags.now }
{
    tags.iter().position(|o| o.is_free())
}

// The lowest free tag.
#[tactic(auto, unfolding(crate::specs::Tags::free_tag))]
pub fn lowest_free(tags: &[TagState; 32]) -> Option<Tag>
    ensures { result ≡ free_tag tags.now }
{
    Some(Tag(free_place(tags)? as u8))
}

// The state of a tag. A tag above 31 is always free.
#[tactic(auto, unfolding(crate::specs::Tags::tag_state))]
pub fn tag_state(tags: &[TagState; 32], t: Tag) -> TagState
    ensures { result ≡ tag_state tags.now t }
{
    tags.get(t.0 as usize).copied().unwrap_or(TagState::Free)
}

// Gives one of the tags another state.
#[tactic(auto, unfolding(crate::specs::Tags::set_tag))]
pub fn set_tag(tags: &mut [TagState; 32], t: Tag, o: TagState)
    ensures { tags.new ≡ set_tag tags.old t o }
{
    if t.0 < 32 {
        tags[t.0 as usize] = o;
    }
}

// Marks every overlapping Translation Request stale, and lets every overlapping
// translated read delay the ITag.
#[tactic(auto, using(lemmas::proofs::Maps::map_turn), unfolding(crate::specs::Tags::invalidated_tags))]
pub fn invalidate(tags: &mut [TagState; 32], range: Range, itag: ITag)
    ensures { tags.new ≡ invalidated_tags range itag tags.old }
{
    for o in tags.iter_mut() {
        *o = o.invalidated(range, itag);
    }
}

// Marks every outstanding Translation Request stale.
#[tactic(auto, using(lemmas::proofs::Maps::map_turn), unfolding(crate::specs::Tags::all_stale))]
pub fn all_stale(tags: &mut [TagState; 32])
    ensures { tags.new ≡ all_stale tags.old }
{
    for o in tags.iter_mut() {
        *o = o.stale();
    }
}

// The ITags that some outstanding read delays.
#[tactic(auto, unfolding(crate::specs::Tags::delayed_itags))]
pub fn delayed_itags(tags: &[TagState; 32]) -> u32
    ensures { result ≡ delayed_itags tags.now }
{
    tags.iter().fold(0, |v, o| v | o.delayed())
}
