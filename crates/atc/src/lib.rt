// The address translation cache: 32 slots of one unit each, and the hand that
// selects the slot to replace.
#![tactic(auto)]

ghost use Rattle.std.specs.Prelude.{◌≡◌};
ghost use Rattle.atc.specs.Cache.{blank, emptied, is_entry_of, is_free_slot, slot_of, free_slot, entry_at, found, filled_with, unit_dropped, entry_overlaps, entry_dropped, range_dropped};

use ranges::Range;

// What a slot holds of the translation of a unit. `to` stands beside `u` and in no Option, since
// contracts speak of every value of the two.
#[derive(Clone, Copy, PartialEq, Eq, Debug)]
pub struct Entry {
    pub r: bool,
    pub w: bool,
    pub n: bool,
    pub u: bool,
    pub unit: u64,
    pub to: u64,
}

#[derive(Clone, Copy, PartialEq, Eq, Debug)]
pub struct Cache {
    hand: u32,
    slots: [Option<Entry>; 32],
}

impl Entry {
    // Does the unit overlap a range?
    fn overlaps(&self, stu: u8, range: Range) -> bool
        ensures { result ≡ entry_overlaps stu range self.now }
    {
        ranges::overlaps(ranges::region(self.unit, ranges::unit_exponent(stu)), range)
    }
}

impl Cache {
    // A new cache: no entry, and the hand at slot 0.
    pub fn new() -> Cache
        ensures { result ≡ blank }
    {
        Cache {
            hand: 0,
            slots: [None; 32],
        }
    }

    // Deletes all entries; the hand stays.
    pub fn empty(&mut self)
        ensures { self.new ≡ emptied self.old }
    {
        self.slots = [None; 32];
    }

    // The entry in slot i; past the last slot there is none.
    pub fn entry_at(&self, i: usize) -> Option<Entry>
        ensures { result ≡ entry_at self.now i }
    {
        if i < 32 { self.slots[i] } else { None }
    }

    // How many entries were replaced since the reset, modulo 2^32. This is the hand.
    pub fn evictions(&self) -> u32
        ensures { result ≡ self.now.hand }
    {
        self.hand
    }

    // The slot with the entry of a unit.
    fn slot_of(&self, unit: u64) -> Option<usize>
        ensures { result ≡ slot_of self.now.slots unit }
    {
        self.slots
            .iter()
            .position(|slot| slot.is_some_and(|e| e.unit == unit))
    }

    // The lowest free slot.
    fn free_slot(&self) -> Option<usize>
        ensures { result ≡ free_slot self.now.slots }
    {
        self.slots.iter().position(|slot| slot.is_none())
    }

    // Finds the entry of a unit.
    #[tactic(auto, unfolding(crate::specs::Cache::found))]
    pub fn find(&self, unit: u64) -> Option<Entry>
        ensures { result ≡ found self.now unit }
    {
        self.slots[self.slot_of(unit)?]
    }

    // Stores an entry: in the slot of the unit's old entry, else in the lowest free slot, else in the
    // slot of the hand, which then steps.
    #[tactic(auto, unfolding(crate::specs::Cache::filled_with))]
    pub fn fill(&mut self, e: Entry)
        ensures { self.new ≡ filled_with e self.old }
    {
        if let Some(i) = self.slot_of(e.unit).or_else(|| self.free_slot()) {
            self.slots[i] = Some(e);
        } else {
            self.slots[(self.hand % 32) as usize] = Some(e);
            self.hand = self.hand.wrapping_add(1);
        }
    }

    // Deletes the entry of a unit.
    #[tactic(auto, unfolding(crate::specs::Cache::unit_dropped))]
    pub fn drop_unit(&mut self, unit: u64)
        ensures { self.new ≡ unit_dropped unit self.old }
    {
        if let Some(i) = self.slot_of(unit) {
            self.slots[i] = None;
        }
    }

    // Deletes every entry whose unit overlaps a range.
    #[tactic(auto, using(lemmas::proofs::Maps::map_turn, lemmas::proofs::Maps::map_keep), unfolding(crate::specs::Cache::range_dropped))]
    pub fn drop_range(&mut self, stu: u8, range: Range)
        ensures { self.new ≡ range_dropped stu range self.old }
    {
        for slot in self.slots.iter_mut() {
            if slot.is_some_and(|e| e.overlaps(stu, range)) {
                *slot = None;
            }
        }
    }
}
