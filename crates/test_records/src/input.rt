ghost use Rattle.std.specs.Prelude.{◌≡◌, drop};
ghost use Rattle.test_records.specs.Left.{first_byte, first_bytes};

use crate::Stored;

// The bytes of a record that are still to be read. Past their end every byte is 0.
#[derive(Drop)]
pub struct Input<'a> {
    rest: &'a [u8],
}

impl<'a> Input<'a> {
    pub fn new(bytes: &'a [u8]) -> Self
        ensures { result.rest.now ≡ bytes.now }
    {
        Input { rest: bytes }
    }

    // The next byte.
    pub fn byte(&mut self) -> u8
        ensures first { result ≡ first_byte self.old.rest.now }
        ensures rest { self.new.rest.now ≡ drop 1 self.old.rest.now }
    {
        let next = self.rest.split_off_first();
        next.copied().unwrap_or(0)
    }

    // The next N bytes.
    pub fn bytes<const N: usize>(&mut self) -> [u8; N]
        ensures first { result ≡ first_bytes N self.old.rest.now }
        ensures rest { self.new.rest.now ≡ drop N self.old.rest.now }
    {
        let mut bytes = [0; N];
        for b in bytes.iter_mut() {
            *b = self.byte();
        }
        bytes
    }

    // The next value of a type.
    pub fn take<T: Stored>(&mut self) -> T {
        T::take(self)
    }

    // The bytes that are left.
    pub fn rest(&self) -> &'a [u8]
        ensures { result.now ≡ self.now.rest.now }
    {
        self.rest
    }
}
