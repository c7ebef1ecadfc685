// Completions with data for a Translation Request: classification, and updates of the cache.
#![tactic(auto)]

ghost use Rattle.std.specs.Prelude.{◌≡◌, ◌≤◌};
ghost use Rattle.ranges.specs.Range.{relocated};
ghost use Rattle.tags.specs.Tags.{translation_range};
ghost use Rattle.translations.specs.Fits.{boundary, on_boundary, first_part, second_part, part_of, common_size, size_is, begins_in, received_count, translation_fits, all_fit, size_fits, translations_fit, classified};
ghost use Rattle.translations.specs.Fills.{allows_access, entry_of, unit_updated, updated_if_covered, updated_at, applied, after_first};

use atc::{Cache, Entry};
use ranges::{Range, Translation};
use tags::PendingTranslation;

// The Read Completion Boundary, in bytes.
#[derive(Clone, Copy, PartialEq, Eq, Debug)]
pub enum Rcb {
    B64 = 64,
    B128 = 128,
}

// The class of a completion: it does not fit its request; it is the only packet and ends off the
// boundary; it is the first of two; or it is the last.
#[derive(Clone, Copy, PartialEq, Eq, Debug)]
pub enum Part {
    Misfit,
    OffBoundary,
    First,
    Last,
}

// The translations of a payload over the units of a range. Each is for a region of 2^e bytes, and
// `before` of them came in an earlier packet.
#[derive(Clone, Copy)]
struct Load<'a> {
    range: Range,
    stu: u8,
    e: u32,
    before: u64,
    payload: &'a [u8],
    ghost few: { before ≤ 8191 },
}

// The Read Completion Boundary in bytes.
pub fn boundary_bytes(rcb: Rcb) -> u16
    ensures { result ≡ boundary rcb }
{
    rcb as u16
}

#[tactic(auto, unfolding(crate::specs::Fits::on_boundary))]
fn is_on_boundary(rcb: Rcb, n: u32) -> bool
    ensures { result ≡ on_boundary rcb n }
{
    n % rcb as u32 == 0
}

// Byte Count, Lower Address and length stay three arguments here and below, as in the definitions and
// in `classify`.
#[tactic(auto, using(lemmas::proofs::Cases::cases), unfolding(crate::specs::Fits::first_part))]
fn first_part(rcb: Rcb, most: u16, count: u16, lower: u8, bytes: usize) -> Part
    ensures { result ≡ first_part rcb most count lower bytes }
{
    if count % 8 != 0 || usize::from(count) < bytes || most < count {
        return Part::Misfit;
    }
    if usize::from(count) == bytes {
        if is_on_boundary(rcb, count as u32 + lower as u32) {
            Part::Last
        } else {
            Part::OffBoundary
        }
    } else if is_on_boundary(rcb, bytes as u32 + lower as u32) {
        Part::First
    } else {
        Part::Misfit
    }
}

#[tactic(auto, using(lemmas::proofs::Cases::cases), unfolding(crate::specs::Fits::second_part))]
fn second_part(due: u16, count: u16, lower: u8, bytes: usize) -> Part
    ensures { result ≡ second_part due count lower bytes }
{
    if count == due && bytes == usize::from(due) && lower == 0 {
        Part::Last
    } else {
        Part::Misfit
    }
}

// The class by Byte Count, Lower Address and length, without the translations.
#[tactic(auto, using(lemmas::proofs::Cases::cases), unfolding(crate::specs::Fits::part_of))]
fn part_of(t: PendingTranslation, rcb: Rcb, count: u16, lower: u8, bytes: usize) -> Part
    ensures { result ≡ part_of t rcb count lower bytes }
{
    if bytes % 8 != 0 {
        return Part::Misfit;
    }
    if t.due == 0 {
        let most = 8 * (1 + t.further as u16 % 16);
        first_part(rcb, most, count, lower, bytes)
    } else {
        second_part(t.due, count, lower, bytes)
    }
}

// The size that all translations of a request must have: that of the first. Request and payload stay two
// arguments, as in the public functions below.
#[tactic(auto, using(lemmas::proofs::Cases::cases), unfolding(crate::specs::Fits::common_size))]
fn common_size(t: PendingTranslation, payload: &[u8]) -> Option<u32>
    ensures { result ≡ common_size t payload.now }
{
    if t.due == 0 {
        tlp::translation_at(payload, 0).size
    } else {
        Some(t.size)
    }
}

fn size_is(size: Option<u32>, e: u32) -> bool
    ensures { result ≡ size_is size e }
{
    size.is_some_and(|own| own == e)
}

// Does region k of 2^e bytes begin in the range? Region 0 holds the first byte of the range.
#[tactic(auto, using(lemmas::proofs::Tests::sub_leb, lemmas::proofs::Tests::past_leb, ranges::proofs::Units::region_leb), unfolding(crate::specs::Fits::begins_in))]
fn begins_in(range: Range, e: u32, k: u64) -> bool
    ensures { result ≡ begins_in range e k }
{
    let first = ranges::region_number(range.first, e);
    let last = ranges::region_number(range.last, e);
    if last < first {
        return false;
    }
    k <= last - first
}

// How many translations came in the first of two packets.
#[tactic(auto, unfolding(crate::specs::Fits::received_count))]
fn received_count(t: PendingTranslation) -> u64
    ensures { (result ≡ received_count t) × (result ≤ 8191) }
{
    u64::from(t.whole.saturating_sub(t.due) / 8)
}

#[tactic(auto, using(lemmas::proofs::Cases::cases), unfolding(crate::specs::Fits::translation_fits))]
fn translation_fits(range: Range, e: u32, k: u64, size: Option<u32>) -> bool
    ensures { result ≡ translation_fits range e k size }
{
    size_is(size, e) && begins_in(range, e, k)
}

impl<'a> Load<'a> {
    // The payload of a completion for a request.
    fn of(t: PendingTranslation, e: u32, payload: &'a [u8]) -> Load<'a>
        ensures range { result.range ≡ translation_range t }
        ensures stu { result.stu ≡ t.stu }
        ensures e { result.e ≡ e }
        ensures before { result.before ≡ received_count t }
        ensures payload { result.payload.now ≡ payload.now }
    {
        Load {
            range: t.range(),
            stu: t.stu,
            e,
            before: received_count(t),
            payload,
        }
    }

    // Do all translations fit? A closure for `all` would need a contract of its own, for its sum.
    #[tactic(auto, using(lemmas::proofs::All::all_start, lemmas::proofs::All::all_turn), unfolding(crate::specs::Fits::all_fit))]
    fn all_fit(&self) -> bool
        ensures { result ≡ all_fit self.now.range self.now.e self.now.before self.now.payload.now }
    {
        for i in 0..self.payload.len() / 8 {
            let size = tlp::translation_at(self.payload, i).size;
            if !translation_fits(self.range, self.e, self.before + i as u64, size) {
                return false;
            }
        }
        true
    }

    // Updates a unit if one of the translations covers it.
    #[tactic(auto, using(lemmas::proofs::Cases::cases), unfolding(crate::specs::Fills::updated_if_covered))]
    fn update_if_covered(&self, c: &mut Cache, unit: u64)
        ensures { c.new ≡ updated_if_covered self.now.range.first self.now.e self.now.before unit self.now.payload.now c.old }
    {
        let first = ranges::region_number(self.range.first, self.e);
        let k = ranges::region_number(unit, self.e).saturating_sub(first);
        if k < self.before {
            return;
        }
        if k - self.before < (self.payload.len() / 8) as u64 {
            let x = tlp::translation_at(self.payload, (k - self.before) as usize);
            update_unit(c, x, self.e, unit);
        }
    }

    // Updates unit j of the range, if the range has that many.
    #[tactic(auto, using(lemmas::proofs::Cases::cases, lemmas::proofs::Tests::over_ltb), unfolding(crate::specs::Fills::updated_at))]
    fn update_at(&self, c: &mut Cache, j: u64)
        requires { j ≤ 15 }
        ensures { c.new ≡ updated_at self.now.range self.now.stu self.now.e self.now.before self.now.payload.now j c.old }
    {
        let offset = j * ranges::unit_bytes(self.stu);
        if 0xFFFF_FFFF_FFFF_FFFF - self.range.first < offset {
            return;
        }
        let unit = self.range.first + offset;
        if unit <= self.range.last {
            self.update_if_covered(c, unit);
        }
    }
}

#[tactic(auto, using(lemmas::proofs::Cases::cases), unfolding(crate::specs::Fits::size_fits))]
fn size_fits(t: PendingTranslation, size: Option<u32>, payload: &[u8]) -> bool
    ensures { result ≡ size_fits t size payload.now }
{
    match size {
        Some(e) => ranges::unit_exponent(t.stu) <= e && Load::of(t, e, payload).all_fit(),
        None => false,
    }
}

// Do the translations fit: one size, not below the unit, and every region begins in the range?
fn translations_fit(t: PendingTranslation, payload: &[u8]) -> bool
    ensures { result ≡ translations_fit t payload.now }
{
    size_fits(t, common_size(t, payload), payload)
}

// Classifies a completion, with its translations. Nothing changes.
#[tactic(auto, unfolding(crate::specs::Fits::classified))]
pub fn classify(t: PendingTranslation, rcb: Rcb, count: u16, lower: u8, payload: &[u8]) -> Part
    ensures { result ≡ classified t rcb count lower payload.now }
{
    let part = part_of(t, rcb, count, lower, payload.len());
    match part {
        Part::First | Part::Last if !translations_fit(t, payload) => Part::Misfit,
        _ => part,
    }
}

// The entry of a unit under a translation of 2^e bytes.
fn entry_of(x: Translation, e: u32, unit: u64) -> Entry
    ensures { result ≡ entry_of x e unit }
{
    Entry {
        r: x.r,
        w: x.w,
        n: x.n,
        u: x.u,
        unit,
        to: if x.u {
            0
        } else {
            ranges::relocate(x.base, unit, e)
        },
    }
}

// Is R or W set?
fn allows_access(x: Translation) -> bool
    ensures { result ≡ allows_access x }
{
    x.r || x.w
}

// Stores the entry of a unit, or deletes it if the translation allows no access.
#[tactic(auto, using(lemmas::proofs::Cases::cases), unfolding(crate::specs::Fills::unit_updated))]
fn update_unit(c: &mut Cache, x: Translation, e: u32, unit: u64)
    ensures { c.new ≡ unit_updated x e unit c.old }
{
    if allows_access(x) {
        c.fill(entry_of(x, e, unit));
    } else {
        c.drop_unit(unit);
    }
}

// Updates every unit of the request's range that the payload covers, in ascending order. A size that
// is not there counts as 0 here and below, as in the definitions (`exponent_or0`).
#[tactic(auto, using(lemmas::proofs::Iterate::iterate_start, lemmas::proofs::Iterate::iterate_turn), unfolding(crate::specs::Fills::applied, tags::specs::Tags::translation_range))]
pub fn apply(c: &mut Cache, t: PendingTranslation, payload: &[u8])
    ensures { c.new ≡ applied t payload.now c.old }
{
    let e = common_size(t, payload).unwrap_or(0);
    let load = Load::of(t, e, payload);
    for j in 0..1 + t.further as u64 % 16 {
        load.update_at(c, j);
    }
}

// The request after the first of two packets.
pub fn after_first(t: PendingTranslation, count: u16, payload: &[u8]) -> PendingTranslation
    ensures { result ≡ after_first t count payload.now }
{
    PendingTranslation {
        size: common_size(t, payload).unwrap_or(0),
        whole: count,
        due: usize::from(count).saturating_sub(payload.len()) as u16,
        ..t
    }
}
