// The page walk of the host's translator: four levels of tables of 512 entries in one lent slice.
#![tactic(auto)]

ghost use Rattle.std.specs.Prelude.{◌≡◌, ◌||◌, ◌^◌, ◌<◌, eqb};
ghost use Rattle.walk.specs.Walk.{rights_in, bits51_to12, is_none, both_grant, below, covered_exponent, index_at, is_large, page_of, walked, counted};

use ranges::region;

#[derive(Clone, Copy)]
pub struct Rights {
    pub r: bool,
    pub w: bool,
}

impl Rights {
    // R in bit 0, W in bit 1.
    fn in_entry(entry: u64) -> Rights
        ensures { result ≡ rights_in entry }
    {
        Rights {
            r: entry % 2 == 1,
            w: entry / 2 % 2 == 1,
        }
    }

    // Does it grant neither right?
    pub fn is_none(self) -> bool
        ensures { result ≡ is_none self }
    {
        !(self.r || self.w)
    }

    // What both grant. `&` takes no branch, which `&&` would.
    fn and(self, other: Rights) -> Rights
        ensures { result ≡ both_grant self other }
    {
        Rights {
            r: self.r & other.r,
            w: self.w & other.w,
        }
    }
}

// A page of 2^exponent bytes, and the rights that every entry on the way to it grants.
#[derive(Clone, Copy)]
pub struct Mapping {
    pub base: u64,
    pub exponent: u32,
    pub rights: Rights,
}

// How a walk ends: with a page; with no page, because the address has more than 48 bits or an entry
// grants neither right; or at a table that is not wholly lent.
#[derive(Clone, Copy)]
pub enum End {
    Mapped(Mapping),
    Unmapped,
    NotLent,
}

// How a walk ended, and how many table entries it read.
#[derive(Clone, Copy)]
pub struct Walk {
    pub end: End,
    pub visited: u32,
}

// Which table comes next, or which page of 4096 bytes is meant.
fn bits_51_to_12(entry: u64) -> u64
    ensures { (result ≡ bits51_to12 entry) × (result < 2 ^ 40) }
{
    entry / 4096 % 0x100_0000_0000
}

// A level of tables, and how many levels are below it.
#[derive(Clone, Copy)]
enum Level {
    One = 3,
    Two = 2,
    Three = 1,
    Four = 0,
}

impl Level {
    // How much one entry covers.
    fn covered_exponent(self) -> u32
        ensures { result ≡ covered_exponent (below self) }
    {
        12 + 9 * self as u32
    }

    fn index_at(self, address: u64) -> u64
        ensures { (result ≡ index_at (below self) address) × (result < 512) }
    {
        (address >> self.covered_exponent()) % 512
    }

    // Does the entry map a page? Bit 7 is used at levels 2 and 3.
    fn is_page(self, entry: u64) -> bool
        ensures { result ≡ (eqb (below self) 0 || is_large (below self) entry) }
    {
        match self {
            Level::One => false,
            Level::Two | Level::Three => entry / 128 % 2 == 1,
            Level::Four => true,
        }
    }

    fn page_of(self, entry: u64, rights: Rights) -> Mapping
        ensures { result ≡ page_of (below self) entry rights }
    {
        let exponent = self.covered_exponent();
        Mapping {
            base: region(bits_51_to_12(entry) * 4096, exponent).first,
            exponent,
            rights,
        }
    }
}

// Walks the lent tables from table 0 on.
#[tactic(auto, unfolding(crate::specs::Walk::walked))]
pub fn walk_tables(entries: &[u64], address: u64) -> Walk
    ensures { result ≡ counted (walked entries.now address) }
{
    if 0x1_0000_0000_0000 <= address {
        return Walk {
            end: End::Unmapped,
            visited: 0,
        };
    }
    let mut k: u64 = 0;
    let mut granted = Rights { r: true, w: true };
    let mut visited: u32 = 0;
    for level in [Level::One, Level::Two, Level::Three, Level::Four] {
        if (entries.len() as u64) < 512 * (k + 1) {
            return Walk {
                end: End::NotLent,
                visited,
            };
        }
        let entry = entries[(512 * k + level.index_at(address)) as usize];
        let own = Rights::in_entry(entry);
        visited += 1;
        granted = granted.and(own);
        if own.is_none() {
            return Walk {
                end: End::Unmapped,
                visited,
            };
        }
        if level.is_page(entry) {
            return Walk {
                end: End::Mapped(level.page_of(entry, granted)),
                visited,
            };
        }
        k = bits_51_to_12(entry);
    }
    // Every entry of the fourth level maps a page.
    unreachable!()
}
