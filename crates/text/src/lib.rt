// Numbers as text: hex read in either case and written in upper case, decimal with no leading zero.
#![tactic(auto)]

mod table;

ghost use Rattle.std.specs.Prelude.{◌≡◌, ◌<◌};
ghost use Rattle.text.specs.Digits.{hex_value_of, hex_values, hex_digit, hex_in, hex4, hex8};
ghost use Rattle.text.specs.Numerals.{digits_of, numeral};

// The value of a hex digit, or None for any other character.
pub fn hex_value(c: u8) -> Option<u8>
    ensures { result ≡ hex_value_of c }
{
    let value = char::from(c).to_digit(16)?;
    Some(value as u8)
}

// The values of all characters, as a table. For many characters a look-up is
// faster than `hex_value`. The contract has 16 for a character that is no digit.
#[tactic(auto, unfolding(crate::specs::Digits::hex_values, crate::specs::Digits::values_from))]
pub fn hex_values() -> [u8; 256]
    ensures { result ≡ hex_values }
{
    table::VALUES
}

fn hex_digit(n: u8) -> u8
    requires { n < 16 }
    ensures { result ≡ hex_digit n }
{
    if n < 10 { b'0' + n } else { 55 + n }
}

// The last N hex digits of a number, with zeros before it. With `digits.iter_mut().rev()` the proof did
// not close: after it nothing is known of the digits.
fn hex<const N: usize>(n: u32) -> [u8; N]
    ensures { result ≡ hex_in N n }
{
    let mut digits = [b'0'; N];
    let mut rest = n;
    for i in (0..N).rev() {
        digits[i] = hex_digit((rest % 16) as u8);
        rest /= 16;
    }
    digits
}

// A 16-bit number as four hex digits.
#[tactic(auto, using(crate::proofs::HexWriting::four))]
pub fn hex4(n: u16) -> [u8; 4]
    ensures { result ≡ hex4 n }
{
    hex(u32::from(n))
}

// A 32-bit number as eight hex digits.
#[tactic(auto, using(crate::proofs::HexWriting::eight))]
pub fn hex8(n: u32) -> [u8; 8]
    ensures { result ≡ hex8 n }
{
    hex(n)
}

// The digits of a number from index `start` on, with zeros before them, which `decimal` promises too:
// so the whole array is handed out, and `as_bytes` is the slice of the digits.
#[derive(Clone, Copy)]
pub struct Numeral {
    pub digits: [u8; 20],
    pub start: usize,
}

impl Numeral {
    // The digits from `start` on, and none where `start` is past the end.
    pub fn as_bytes(&self) -> &[u8]
        ensures { result.now ≡ digits_of self.now }
    {
        &self.digits[self.start.min(20)..]
    }
}

// A number in decimal.
#[tactic(auto, using(crate::proofs::Writing::held_last, crate::proofs::Writing::held_full))]
pub fn decimal(n: u64) -> Numeral
    ensures { result ≡ numeral n }
{
    let mut digits = [b'0'; 20];
    let mut rest = n;
    for start in (0..20).rev() {
        digits[start] = b'0' + (rest % 10) as u8;
        if rest < 10 {
            return Numeral { digits, start };
        }
        rest /= 10;
    }
    Numeral { digits, start: 0 }
}
