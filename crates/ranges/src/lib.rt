// Sizes and ranges. A size is the exponent of a power of two and a range ends with its last byte,
// so that 2^64 never has to fit.
#![tactic(auto)]

ghost use Rattle.std.specs.Prelude.{◌≡◌, cond, ◌-◌, ◌/◌, ◌*◌, ◌^◌, ◌≤◌, max};
ghost use Rattle.ranges.specs.Size.{lowest_zero, size_at, size_of, base_of, translation_of, size_exponent, coded, coded_size, word_of};
ghost use Rattle.ranges.specs.Range.{unit_exponent, unit_bytes, region_of, rounded_of, range_from, units_from, relocated, overlaps};

#[derive(Clone, Copy)]
pub struct Range {
    pub first: u64,
    pub last: u64,
}

// An 8-byte translation: where its region begins, how large it is, and its bits N, U, W and R.
#[derive(Clone, Copy)]
pub struct Translation {
    pub base: u64,
    pub size: Option<u32>,
    pub n: bool,
    pub u: bool,
    pub w: bool,
    pub r: bool,
}

// The lowest zero bit at or above 12, and 64 where there is none.
fn lowest_zero(x: u64) -> u32
    ensures { (result ≡ lowest_zero 52 12 x) × (result ≤ 64) }
{
    for b in 12..64 {
        if (x >> b) % 2 != 1 {
            return b;
        }
    }
    64
}

fn size_at(b: u32) -> Option<u32>
    ensures { result ≡ size_at b }
{
    if b < 64 { Some(b + 1) } else { None }
}

// The size that an address and its S bit encode.
#[tactic(auto, using(crate::proofs::Laws::plain_size), unfolding(crate::specs::Size::size_of))]
pub fn size_of(address: u64, sized: bool) -> Option<u32>
    ensures { result ≡ size_of address sized }
{
    if sized {
        size_at(lowest_zero(address))
    } else {
        Some(12)
    }
}

// The range of 2^exponent bytes that holds an address and is aligned to its own size.
pub fn region(address: u64, exponent: u32) -> Range
    ensures { result ≡ region_of address exponent }
{
    if exponent < 64 {
        let bytes = 1u64 << exponent;
        let first = address / bytes * bytes;
        Range {
            first,
            last: first + (bytes - 1),
        }
    } else {
        Range {
            first: 0,
            last: u64::MAX,
        }
    }
}

// The exponent of the unit, 12 + STU. An STU above 31, which no reset accepts, counts modulo 32.
pub fn unit_exponent(stu: u8) -> u32
    ensures { result ≡ unit_exponent stu }
{
    12 + stu as u32 % 32
}

// The number of bytes in a unit.
pub fn unit_bytes(stu: u8) -> u64
    ensures { (result ≡ unit_bytes stu) × (1 ≤ result) × (result ≤ 0x800_0000_0000) }
{
    1u64 << unit_exponent(stu)
}

// The number of the region of 2^exponent bytes that holds an address, counted from 0.
pub fn region_number(address: u64, exponent: u32) -> u64
    ensures { result ≡ address / 2 ^ exponent }
{
    if exponent < 64 {
        address >> exponent
    } else {
        0
    }
}

// The region of an address, rounded up to a unit: the larger of the two exponents counts.
#[tactic(auto, unfolding(crate::specs::Range::rounded_of))]
pub fn rounded(address: u64, exponent: u32, unit: u32) -> Range
    ensures { result ≡ rounded_of address exponent unit }
{
    region(address, exponent.max(unit))
}

// The range of `rest` + 1 bytes from `first` on, cut off at the top of the address space.
#[tactic(auto, unfolding(crate::specs::Range::range_from))]
pub fn range_from(first: u64, rest: u64) -> Range
    ensures { result ≡ range_from first rest }
{
    Range {
        first,
        last: first.saturating_add(rest),
    }
}

// The range of the unit that holds an address and the `further` units after it.
// `further` counts modulo 16.
#[tactic(auto, unfolding(crate::specs::Range::units_from))]
pub fn units_from(address: u64, further: u8, stu: u8) -> Range
    ensures { result ≡ units_from address further stu }
{
    let unit = unit_bytes(stu);
    let n = 1 + (further % 16) as u64;
    let first = region(address, unit_exponent(stu)).first;
    range_from(first, n * unit - 1)
}

// Moves an address into the region of `base`: the offset in its own region stays the same.
#[tactic(auto, using(crate::proofs::Units::region_first, crate::proofs::Units::relocated_lt), unfolding(crate::specs::Range::relocated))]
pub fn relocate(base: u64, address: u64, exponent: u32) -> u64
    ensures { result ≡ relocated base address exponent }
{
    let there = region(base, exponent).first;
    let here = region(address, exponent).first;
    there + (address - here)
}

// Do two ranges have a byte in common?
pub fn overlaps(a: Range, b: Range) -> bool
    ensures { result ≡ overlaps a b }
{
    a.first <= b.last && b.first <= a.last
}

// 0 where there is no size, as `translation_of` has it.
fn base_of(address: u64, size: Option<u32>) -> u64
    ensures { result ≡ base_of address size }
{
    size.map_or(0, |e| region(address, e).first)
}

// Decodes an 8-byte translation.
#[tactic(auto, unfolding(crate::specs::Size::translation_of))]
pub fn translation_of(word: u64) -> Translation
    ensures { result ≡ translation_of word }
{
    let size = size_of(word, word / 2048 % 2 == 1);
    Translation {
        base: base_of(word, size),
        size,
        n: word / 1024 % 2 == 1,
        u: word / 4 % 2 == 1,
        w: word / 2 % 2 == 1,
        r: word % 2 == 1,
    }
}

// Sizes are 2^12 to 2^64 bytes. An exponent outside counts as the nearest of them.
fn size_exponent(exponent: u32) -> u32
    ensures { (result ≡ size_exponent exponent) × (12 ≤ result) × (result ≤ 64) }
{
    exponent.min(64).max(12)
}

// Ones from bit 12 up to bit exponent - 2.
fn ones_below(exponent: u32) -> u64
    requires { (12 ≤ exponent) × (exponent ≤ 64) }
    ensures { result ≡ 2 ^ (exponent - 1) - 4096 }
{
    if exponent == 12 {
        0
    } else {
        (1u64 << (exponent - 1)) - 4096
    }
}

// The address that encodes the region of 2^exponent bytes which holds an address.
#[tactic(auto, using(crate::proofs::Codes::coded_le), unfolding(crate::specs::Size::coded))]
pub fn coded(address: u64, exponent: u32) -> u64
    ensures { (result ≡ coded address exponent) × (result ≤ 0xFFFF_FFFF_FFFF_F000) }
{
    let e = size_exponent(exponent);
    region(address, e).first + ones_below(e)
}

// `u64::from(set) * value` at each of the five uses is no plainer.
fn flag(set: bool, value: u64) -> u64
    ensures { (result ≡ cond set value 0) × (result ≤ value) }
{
    if set { value } else { 0 }
}

fn coded_size(address: u64, size: Option<u32>) -> u64
    ensures { (result ≡ coded_size address size) × (result ≤ 0xFFFF_FFFF_FFFF_F800) }
{
    match size {
        Some(e) => coded(address, e) + flag(12 < e, 2048),
        None => 0xFFFF_FFFF_FFFF_F800,
    }
}

// Encodes an 8-byte translation.
#[tactic(auto, unfolding(crate::specs::Size::word_of))]
pub fn word_of(t: Translation) -> u64
    ensures { result ≡ word_of t }
{
    let size = t.size;
    coded_size(t.base, size) + flag(t.n, 1024) + flag(t.u, 4) + flag(t.w, 2) + flag(t.r, 1)
}
