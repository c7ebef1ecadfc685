// Decodes bytes from hex.
ghost use Rattle.std.specs.Prelude.{◌≡◌, ◌+◌, ◌*◌, ◌≤◌, ◌<◌, length};
ghost use Rattle.text.specs.Digits.{hex_value, hex_values};
ghost use Rattle.lister.specs.Runs.{HexRun};

// The most bytes that this number of characters can encode, at most 144.
fn most(characters: usize) -> usize
    ensures { (result ≤ 144) × (result * 2 ≤ characters) × (result < 144 → characters < result * 2 + 2) }
{
    (characters / 2).min(144)
}

#[tactic(auto, using(text::proofs::Values::value_of))]
fn value(values: &[u8; 256], c: u8) -> u8
    requires { values.now ≡ hex_values }
    ensures { result ≡ hex_value c }
{
    values[c as usize]
}

// Decodes bytes up to a character that is not a hex digit, and returns their number, since `HexRun`
// speaks of it and of the whole array. The table marks such a character by 16, as `hex_values` promises.
// With `bytes.iter_mut().zip(..)` the proof did not close: in such a loop nothing is known of the bytes.
pub(crate) fn run(cs: &[u8], bytes: &mut [u8; 144], values: &[u8; 256]) -> usize
    requires { (length bytes.old ≡ 144) × (values.now ≡ hex_values) }
    ensures { HexRun cs.now result bytes.new }
{
    let end = most(cs.len());
    for i in 0..end {
        let high = value(values, cs[i * 2]);
        let low = value(values, cs[i * 2 + 1]);
        if 15 < high || 15 < low {
            return i;
        }
        bytes[i] = high * 16 + low;
    }
    end
}
