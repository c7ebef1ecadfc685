ghost use Rattle.std.specs.Prelude.{◌≤◌, length};

use crate::Stored;

// Text that is written into a lent buffer, with the index after it, since the programs use no heap.
// What has no room is dropped.
#[derive(Drop)]
pub struct Output<'a> {
    space: &'a mut [u8],
    at: usize,
    ghost in_room: { at ≤ length space.now },
}

impl<'a> Output<'a> {
    ghost use Rattle.std.specs.Prelude.{◌≡◌, [], ◌∷◌, ◌++◌, codes};
    ghost use Rattle.text.specs.Digits.{decimal};
    ghost use Rattle.test_records.specs.Written.{written, Adds, AddsSome, hex_text};

    // Nothing is written yet.
    pub fn new(space: &'a mut [u8]) -> Self
        ensures same_space { result.space.ghost_name ≡ space.entry.ghost_name }
        ensures untouched { result.space.now ≡ space.old }
        ensures empty { written result ≡ [] }
    {
        Output { space, at: 0 }
    }

    // One character.
    pub fn byte(&mut self, x: u8)
        ensures { Adds (x ∷ []) self.old self.new }
    {
        if self.at < self.space.len() {
            self.space[self.at] = x;
            self.at += 1;
        }
    }

    // Characters.
    pub fn text(&mut self, characters: &[u8])
        ensures { Adds characters.now self.old self.new }
    {
        for c in characters {
            self.byte(*c);
        }
    }

    // Bytes as two hex digits each.
    pub fn hex(&mut self, bytes: &[u8])
        ensures { Adds (hex_text bytes.now) self.old self.new }
    {
        for b in bytes {
            self.byte(DIGITS[usize::from(b / 16)]);
            self.byte(DIGITS[usize::from(b % 16)]);
        }
    }

    // A number in decimal.
    #[tactic(auto, using(text::proofs::Numerals::numeral_digits))]
    pub fn number(&mut self, n: u64)
        ensures { Adds (decimal n) self.old self.new }
    {
        self.text(text::decimal(n).as_bytes());
    }

    // BAD, a tab and a refusal's number. Any byte is taken as a number, as by `put_row` of rows.
    pub fn bad(&mut self, number: u8)
        ensures { Adds (codes "BAD\t" ++ decimal number) self.old self.new }
    {
        self.text(b"BAD\t");
        self.number(u64::from(number));
    }

    // The same for what is not in hex, or asks for what is not there.
    pub fn unreadable(&mut self)
        ensures { Adds (codes "BAD\t0") self.old self.new }
    {
        self.text(b"BAD\t0");
    }

    // A value, as it is stored. What has been written stays.
    pub fn put<T: Stored>(&mut self, x: T)
        ensures { AddsSome self.old self.new }
    {
        x.put(self);
    }

    // What has been written.
    pub fn written(&self) -> &[u8]
        ensures { result.now ≡ written self.now }
    {
        &self.space[..self.at]
    }
}

const DIGITS: [u8; 16] = *b"0123456789ABCDEF";
